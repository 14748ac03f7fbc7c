// Reading terms and the lines of a card from any source of bytes.
//
// A `source::Source` is known by the bytes that it still has to give; `source::Line` is one over a slice. `term::read_term`
// reads a term by a `grammar::Grammar`, which says which symbols and variables there are and how many places and open
// brackets are allowed; `symbol`, `rule` and `recipe` read what the product takes. A `fault::Fault` says which rule was
// broken, and the source then stands at the byte that settled it.
//
// The readers are proved against a byte automaton (`specs/Scanning.antt`, `specs/Lines.antt`), which settles every fault at
// the earliest byte by its very shape. Above it stand the laws in `laws`: a text is accepted exactly if it is the written
// form of a term inside the limits, and no two terms share a text. Cleaning, cutting into lines and tables are left to others.

#![tactic(auto)]

pub mod fault;
pub mod grammar;
pub mod laws;
pub mod limits;
pub mod name;
pub mod owned;
pub mod recipe;
pub mod rule;
pub mod source;
pub mod symbol;
pub mod term;
