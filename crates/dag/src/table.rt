// The node table.
pub mod interning;
pub mod memory;
pub mod reading;

ghost use Rattle.std.specs.Prelude.{◌≤◌, vec_len};
ghost use Rattle.dag.specs.Trees.{Valid};

use crate::row::Row;

// The records of nodes. The first `count` rows are in use. Among these each is a node whose children are records below it,
// and no two are equal, so each stands for a tree of its own. The rows are memory that was handed over, as long as it was: to push
// to the `Vec` might allocate.
#[derive(Drop)]
pub struct Table {
    rows: Vec<Row>,
    count: usize,
    ghost small: { vec_len rows ≤ 4096 },
    ghost valid: { Valid rows.items count },
}
