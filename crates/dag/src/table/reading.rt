// What a table has: how many rows, how many in use, the node of a record.
ghost use Rattle.std.specs.Prelude.{◌≡◌, ◌<◌, slice_index_or};
ghost use Rattle.dag.specs.Rows.{blank, ChildrenBelow};
ghost use Rattle.dag.specs.Tables.{capacity, Holds, node_tree, OverRecords};

use crate::node::Node;
use crate::row::Row;
use crate::table::Table;

impl Table {
    // How many rows there are.
    pub fn capacity(&self) -> usize
        ensures { result ≡ capacity self.now }
    {
        self.rows.len()
    }

    // How many rows are in use.
    pub fn count(&self) -> usize
        ensures { result ≡ self.now.count }
    {
        self.count
    }

    // The row at a place, in use or not.
    pub(crate) fn row_at(&self, at: usize) -> Row
        requires { at < capacity self.now }
        ensures { result ≡ slice_index_or self.now.rows.items at blank }
    {
        self.rows[at]
    }

    // The node of a record: its tree is the record's, and its children are records below.
    pub fn node(&self, at: usize) -> Node
        requires { at < self.now.count }
        ensures below { ChildrenBelow at result.row }
        ensures over { OverRecords self.now result }
        ensures same { Holds self.now at (node_tree self.now result) }
    {
        Node::from_shaped_row(self.row_at(at))
    }
}
