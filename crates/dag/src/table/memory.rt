// The memory of a table: where its rows come from and go to, one record more, records given up.
ghost use Rattle.std.specs.Prelude.{◌≡◌, ◌+◌, ◌<◌, [], ◌∷◌, ◌++◌, take, vec_len, MatchResult, slice_set};
ghost use mathlib.Core.List.{Memᴰ};
ghost use Rattle.dag.specs.Tables.{capacity, node_tree, OverRecords, trees};

use crate::node::Node;
use crate::row::Row;
use crate::table::Table;

impl Table {
    // A table without records in the memory of these rows, which come back if there are more than 4,096.
    pub fn new(rows: Vec<Row>) -> Result<Table, Vec<Row>>
        ensures { MatchResult result (λ t. (trees t ≡ []) × (capacity t ≡ vec_len rows)) (λ back. (back ≡ rows) × (4096 < vec_len rows)) }
    {
        if rows.len() > 4096 {
            return Err(rows);
        }
        Ok(Table { rows, count: 0 })
    }

    // The memory again.
    pub fn into_rows(self) -> Vec<Row>
        ensures { vec_len result ≡ capacity self }
    {
        let Table { rows, count: _ } = self;
        rows
    }

    // One record more, for a node over records in use whose tree is new.
    pub(crate) fn append(&mut self, node: Node) -> u16
        requires room { self.old.count < capacity self.old }
        requires over { OverRecords self.old node }
        requires new { Memᴰ (node_tree self.old node) (trees self.old) → ⊥ }
        ensures at { result ≡ self.old.count }
        ensures count { self.new.count ≡ self.old.count + 1 }
        ensures rows { self.new.rows.items ≡ slice_set self.old.rows.items self.old.count node.row }
        ensures capacity { capacity self.new ≡ capacity self.old }
        ensures trees { trees self.new ≡ trees self.old ++ (node_tree self.old node ∷ []) }
    {
        let at = self.count;
        self.rows[at] = node.into();
        self.count += 1;
        at as u16
    }

    // Gives up the records from a number on. This is how a table is put back when there is no room for a tree.
    pub fn truncate(&mut self, count: usize)
        ensures rows { self.new.rows ≡ self.old.rows }
        ensures trees { trees self.new ≡ take count (trees self.old) }
    {
        self.count = self.count.min(count);
    }
}
