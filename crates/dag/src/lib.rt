// The node table: trees with shared subterms, one record for each distinct tree (hash-consing).
//
// A `table::Table` owns its rows. Its type says that the rows in use are nodes over records below them and that no two are
// equal, so each record stands for a tree of its own, and every contract speaks of the list of these trees. `node::Node` is
// one row in order: a symbol over at most four records. `Table::intern` gives the record of a node's tree, `build::build` that
// of a term's tree from the term's places, `walk::subterm_records` the records of a tree's subterms in sheet order, and
// `compact::compact` keeps the records of the subterms of some roots and no other. `marks::Marks` guards the mark bytes.
//
// Nothing here allocates: the rows and all work tables are handed in. With no room a call changes no record in use, and its
// promise says that the trees are then too many for the table. Which symbols there are is asked of a `signature::Signature`;
// that trees are trees of a card, who the roots are, and what is printed is left to others.

#![tactic(auto)]

pub mod build;
pub mod compact;
pub mod laws;
pub mod marks;
pub mod node;
pub mod row;
pub mod signature;
mod stack;
pub mod table;
pub mod walk;
