// Hash-consing: one record for each distinct tree. The search goes through the rows in use, with no index beside them. That a
// node is over records of a table is said of the two at each call, since a type for it would borrow the table.
ghost use mathlib.Core.List.{Memᴰ};
ghost use Rattle.std.specs.Prelude.{◌≡◌, MatchOption};
ghost use Rattle.dag.specs.Tables.{capacity, Full, Holds, Interned, KeepsRecords, node_tree, OverRecords, trees};

use crate::node::Node;
use crate::row::Row;
use crate::table::Table;

impl Table {
    // The record of a node's tree.
    pub fn find(&self, node: Node) -> Option<u16>
        requires { OverRecords self.now node }
        ensures { MatchOption result
            (Memᴰ (node_tree self.now node) (trees self.now) → ⊥)
            (λ k. Holds self.now k (node_tree self.now node)) }
    {
        let row = Row::from(node);
        let at = self.rows[..self.count]
            .iter()
            .position(|other| *other == row)?;
        Some(at as u16)
    }

    // The record of a node's tree, which is added if it is not there. With no room for it nothing changes.
    pub fn intern(&mut self, node: Node) -> Option<u16>
        requires { OverRecords self.old node }
        ensures capacity { capacity self.new ≡ capacity self.old }
        ensures records { KeepsRecords self.old self.new }
        ensures cases { MatchOption result
            (Full self.old self.new (node_tree self.old node))
            (Interned self.old self.new (node_tree self.old node)) }
    {
        if let Some(at) = self.find(node) {
            return Some(at);
        }
        if self.count == self.capacity() {
            return None;
        }
        Some(self.append(node))
    }
}
