// Card texts: the cleaner and the lines of a cleaned text.
//
// `clean::clean` copies a text into a second buffer without its blanks, tabs and notes. Line ends stay, so a line keeps its
// number, and a fault in the cleaned text can be reported by its line in the text as written. `cursor::Lines` iterates
// over the lines of the cleaned text, as parts of it, and counts them. `line::is_rule` tells a rule line from a symbol
// line. `laws` has what cleaning and splitting are good for.
//
// The reader of whole cards, which drives drafts over these lines, stands above this crate, in `cardreader`.

#![tactic(auto)]

pub mod clean;
pub mod cursor;
pub mod laws;
pub mod line;
