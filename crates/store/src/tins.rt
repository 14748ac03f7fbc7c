// Sixteen tins over one node table.
pub mod holding;
mod listing;
pub mod memory;
pub mod printing;
pub mod sources;
pub mod work;

ghost use Rattle.std.specs.Prelude.{◌≡◌, ℕ, ◌<◌, true, length, None, vec_len, slice_index_or};
ghost use Rattle.dag.specs.Roots.{in_use};
ghost use Rattle.dag.specs.Tables.{capacity};

use crate::tins::work::WorkTables;
use dag::table::Table;

// A tin holds no tree, or the tree of a record. The work tables are as long as the node table.
#[derive(Drop)]
pub struct Tins {
    table: Table,
    roots: [Option<u16>; 16],
    work: WorkTables,
    ghost long: { vec_len work.marks ≡ capacity table },
    ghost sixteen: { length roots ≡ 16 },
    ghost used: { (i : ℕ) → i < length roots → in_use table.count (slice_index_or roots i None) ≡ true },
}
