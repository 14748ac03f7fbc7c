// Two notations for explicit terms and trees: the preorder list of a term's places, and the text of a tree.
//
// `place::first_term` makes the term that a list of `place::Place`s spells out, `place::forest` all the terms of a longer
// list, `text::Named` shows a tree as text, and `text::line_of` gives that text cut at 200 bytes. Trees, terms and symbols
// come from the crate `explicit`.
//
// Terms are proved to be those that the theory of the crate `rewriting` computes, and a text to be the one that
// `specs/Text.antt` defines. What allocates may find no memory, and then says so by `AllocError`; nothing else can fail.

#![tactic(auto)]

pub mod place;
pub mod text;
