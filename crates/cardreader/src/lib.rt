// Reading a whole card text into the caller's two tables.
//
// The text is cleaned into a second buffer and its lines go into a draft, one by one: symbol lines up to the first line with
// a "=", rule lines from there on, empty lines skipped but counted. `phase` leads a draft with its tables from the first line
// to the card, or tears it up, and `reader` has the call.

#![tactic(auto)]

pub mod fault;
pub mod laws;
mod phase;
pub mod reader;
