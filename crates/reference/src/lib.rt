// A plain rewriter over explicit, unshared trees: what any cleverer rewriter can be compared with.
//
// `step::outermost_step` does the shared step at the outermost site of a tree, and finds none exactly in a normal form.
// Trees and cards come from the crate `explicit`, the rule that fits from `matching`, the sites from `sites`.
//
// Each function is proved to answer what the theory of the crate `rewriting` computes. What allocates may find no memory,
// and then says so by `AllocError`; nothing else can fail.

#![tactic(auto)]

pub mod step;
