// The card's records: what a symbol and a rule look like in the caller's tables, and the test that the counted ones keep
// the card's rules. The tables are plain memory that anybody may have written to, so nothing is trusted before the test.
//
// `SymbolRecord` and `RuleRecord` are the rows of the two tables, `Place` is one place of a rule's side, `Card` is the two
// counts of an accepted card, and `Refusal` is every way in which a call of the product can be turned away.
// `check::keeps_rules` is the test, `name::find` gives the number of a symbol by its name, and `laws` has what the records
// of a tested card are good for: they make a well-formed card of the theory.

#![tactic(auto)]

pub mod check;
pub mod laws;
pub mod name;
pub mod record;
pub mod refusal;
