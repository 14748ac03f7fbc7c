// The two phases of a card that is read: lines that are taken as symbols, and lines that are taken as rules.
mod both;
mod rules;
mod symbols;

ghost use Rattle.card.specs.Records.{Kept};
ghost use Rattle.draft.specs.Drafts.{counts};

pub use crate::phase::both::read_lines;
use card::record::{RuleRecord, SymbolRecord};
use draft::draft::{RuleDraft, SymbolDraft};

// A draft that takes symbol lines, with the tables that it grows in. The counted records keep the card's rules, so no line is
// refused for its tables.
#[derive(Drop)]
pub struct SymbolPhase<'a> {
    draft: &'a mut SymbolDraft,
    symbols: &'a mut [SymbolRecord],
    rules: &'a [RuleRecord],
    ghost kept: { ∥ Kept symbols.now rules.now (counts draft.now.symbols 0) ∥₁ },
}

// A draft that takes rule lines. It is another type, with a method `take` of its own, since it may write the other table.
#[derive(Drop)]
pub struct RulePhase<'a> {
    draft: &'a mut RuleDraft,
    symbols: &'a [SymbolRecord],
    rules: &'a mut [RuleRecord],
    ghost kept: { ∥ Kept symbols.now rules.now (counts draft.now.symbols draft.now.rules) ∥₁ },
}
