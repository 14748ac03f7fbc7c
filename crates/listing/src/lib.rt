// The distinct subterms of an explicit tree, and its sheet.
//
// `subterm::subterms` lists the distinct subterms in sheet order, and `sheet::sheet` gives a row for each of them, with its
// children's numbers. Trees come from the crate `explicit`.
//
// Each function is proved to answer what the theory of the crate `rewriting` computes. What allocates may find no memory,
// and then says so by `AllocError`; nothing else can fail.

#![tactic(auto)]

pub mod sheet;
pub mod subterm;
