// Explicit terms and trees on the heap, without sharing.
//
// A `tree::Tree` is a symbol over its children and a `term::Term` may have variables in the place of trees. A
// `card::Card` has symbols with names and arities, and numbered rules.
//
// Each function is proved to answer what the theory of the crate `rewriting` computes, through `specs/Meaning.antt`, which
// says what this crate's values stand for. What allocates may find no memory, and then says so by `AllocError`; nothing
// else can fail. Trees are copied whole, so this is for small inputs.

#![tactic(auto)]

pub mod card;
pub mod term;
pub mod tree;
