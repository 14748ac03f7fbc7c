// The parts of a node.
ghost use Rattle.std.specs.Prelude.{◌≡◌, ◌<◌, ◌≤◌, length, slice_index};
ghost use Rattle.dag.specs.Rows.{children_of};

use crate::node::Node;

impl Node {
    pub fn symbol(self) -> u8
        ensures { result ≡ self.row.symbol }
    {
        self.row.symbol
    }

    // How many children there are.
    pub fn arity(self) -> usize
        ensures count { result ≡ length (children_of self.row) }
        ensures few { result ≤ 4 }
    {
        self.row.arity as usize
    }

    // The records of the children, from left to right.
    pub fn children(&self) -> &[u16]
        ensures { result.now ≡ children_of self.now.row }
    {
        &self.row.children[..self.arity()]
    }

    // The record of a child, counted from 0.
    pub fn child(self, place: usize) -> u16
        requires { place < length (children_of self.row) }
        ensures { result ≡ slice_index (children_of self.row) place }
    {
        self.row.children[place]
    }
}
