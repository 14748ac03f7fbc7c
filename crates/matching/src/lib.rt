// Matching on explicit trees: the rule that fits a tree, and what the rule makes of it.
//
// `rule::matches` tests a left side, `rule::Candidate::bound` tells what a variable of it stands for, `rule::fitting` finds
// the first rule of a list that fits, and `rule::contracted` makes the tree that the rule gives. Trees, terms and rules come
// from the crate `explicit`.
//
// Each function is proved to answer what the theory of the crate `rewriting` computes. Only `contracted` allocates, and it
// says so by `AllocError` if there is no memory; nothing else can fail.

#![tactic(auto)]

pub mod rule;
