// The bytes of a sheet.
//
// A sheet has a line for each distinct subterm of a tree: its number, its symbol's name and its children's numbers, and behind
// the lines a trailer that says where the root's line is. `line` and `trailer` give the bytes of one line and of the trailer,
// as a short text of their own, and `text::Text::write_to` puts such a text at the front of a buffer, the tail behind the
// lines that are there already. Which lines a tree has, and in which order, is left to the store.
//
// Law: two trees of a card have the same sheet exactly if they are equal.

#![tactic(auto)]

pub mod laws;
pub mod line;
pub mod text;
pub mod trailer;
