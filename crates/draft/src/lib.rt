// A card in the making.
//
// A `SymbolDraft` takes symbol lines; ended, it becomes a `RuleDraft`, which takes rule lines and is accepted as a `Card`.
// Drafts are plain counts: the records stand in the caller's two tables, which come with every call. Each call first tests
// that the tables are long enough and that the counted records keep the card's rules. A line that is taken writes its own
// record and no other, and a refused call leaves draft and tables as they were.
//
// A draft is spent by accepting or tearing it up. Letting one go asks for what nobody can show, so a program that forgets a
// draft on some way out is not proved; and a `RuleDraft` has no call that takes a symbol, so that one is no program at all.

#![tactic(auto)]

pub mod draft;
pub mod laws;
pub mod wipe;
