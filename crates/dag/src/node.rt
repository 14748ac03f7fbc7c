// Nodes: rows that are in order.
pub mod making;
pub mod reading;
pub mod renumbering;

ghost use Rattle.std.specs.Prelude.{◌≡◌, ◌≤◌, length};
ghost use Rattle.dag.specs.Rows.{UnusedZero};

use crate::row::Row;

// A symbol over at most four records, with 0 in each child place that is not used. So two nodes with the same symbol over
// the same children are equal as rows.
#[derive(Clone, Copy, PartialEq, Eq)]
pub struct Node {
    row: Row,
    ghost few: { row.arity ≤ 4 },
    ghost four: { length row.children ≡ 4 },
    ghost unused: { UnusedZero row },
}
