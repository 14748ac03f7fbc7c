// Where the tins' tables come from and go to.
ghost use Rattle.std.specs.Prelude.{◌≡◌, ◌<◌, vec_len, MatchResult};
ghost use Rattle.store.specs.Holding.{Fresh, room};
ghost use Rattle.store.specs.Memories.{AsLong, Wiped};

use crate::memory::Memory;
use crate::tins::Tins;
use crate::tins::work::WorkTables;
use dag::table::Table;

impl Tins {
    // Empty tins over these tables, which come back as they were if there are more than 4,096 rows. A `match` and no
    // `map_err`, since each arm moves the other three tables.
    pub(crate) fn new(memory: Memory) -> Result<Tins, Memory>
        requires { AsLong memory }
        ensures { MatchResult result
            (λ t. Fresh t (vec_len memory.nodes))
            (λ back. (back ≡ memory) × (4096 < vec_len memory.nodes)) }
    {
        let Memory {
            nodes,
            marks,
            order,
            numbers,
        } = memory;
        match Table::new(nodes) {
            Ok(table) => Ok(Tins {
                table,
                roots: [None; 16],
                work: WorkTables::new(marks, order, numbers),
            }),
            Err(nodes) => Err(Memory {
                nodes,
                marks,
                order,
                numbers,
            }),
        }
    }

    // The tables again, with every mark 0.
    pub(crate) fn into_memory(self) -> Memory
        ensures { Wiped result (room self) }
    {
        let Tins {
            table,
            roots: _,
            work,
        } = self;
        work.into_memory(table.into_rows())
    }
}
