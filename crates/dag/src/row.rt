// The rows of a node table.

// A node as the table keeps it: its symbol, how many children it has, and the numbers of their records. Any bytes make a
// row; `node::Node` is one that is in order. It is plain memory of a fixed size that may be copied, which the kit's `ArrayVec` is
// not, so the number of children stands beside them.
#[derive(Clone, Copy, PartialEq, Eq)]
pub struct Row {
    pub symbol: u8,
    pub arity: u8,
    pub children: [u16; 4],
}
