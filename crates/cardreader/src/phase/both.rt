// Both phases, over the lines of a cleaned text.
ghost use Rattle.std.specs.Prelude.{◌≡◌, MatchResult};
ghost use Rattle.card.specs.Records.{Kept};
ghost use Rattle.cardreader.specs.CardTexts.{accepted, Outcome, refused, symbol_lines};
ghost use Rattle.cardreader.specs.Reading.{Blank, SymbolsEnded};
ghost use Rattle.cardtext.specs.Lines.{lines};
ghost use Rattle.draft.specs.Drafts.{counts};

use crate::fault::CardFault;
use crate::phase::{RulePhase, SymbolPhase};
use card::record::{Card, RuleRecord, SymbolRecord};
use cardtext::cursor::Lines;
use draft::draft::SymbolDraft;

// The rule phase, up to the card. A draft that takes a broken line is torn up. It has to be spent on each way out, so the
// results are taken apart by `match` and not by `?`.
fn read_rules(
    draft: SymbolDraft,
    symbols: &mut [SymbolRecord],
    rules: &mut [RuleRecord],
    first: Option<&[u8]>,
    lines: &mut Lines<'_>,
) -> Result<Card, CardFault>
    requires { ∥ Kept symbols.old rules.old (counts draft.symbols 0) ∥₁ }
    ensures { MatchResult result
        (λ c. Kept symbols.new rules.new c
        × ((o : Outcome) → SymbolsEnded draft.symbols symbols.old rules.old lines.old first.entry o → o ≡ accepted c symbols.new rules.new))
        (λ f. Blank symbols.old symbols.new rules.old rules.new
        × ((o : Outcome) → SymbolsEnded draft.symbols symbols.old rules.old lines.old first.entry o → o ≡ refused f.refusal f.line)) }
{
    let mut draft = match draft.end(symbols, rules) {
        Ok(draft) => draft,
        Err((refusal, draft)) => {
            draft.tear_up(symbols, rules);
            return Err(refusal.into());
        }
    };
    let mut phase = RulePhase {
        draft: &mut draft,
        symbols,
        rules,
    };
    if let Err(fault) = phase.take_rest(first, lines) {
        draft.tear_up(symbols, rules);
        return Err(fault);
    }
    match draft.accept(symbols, rules) {
        Ok(card) => Ok(card),
        Err((refusal, draft)) => {
            draft.tear_up(symbols, rules);
            Err(refusal.into())
        }
    }
}

// Both phases. Here too the draft is spent on each way out. The tables stay two parameters: a draft's calls and the phases say by
// their types which of them they may write.
pub fn read_lines(
    draft: SymbolDraft,
    symbols: &mut [SymbolRecord],
    rules: &mut [RuleRecord],
    text: &[u8],
) -> Result<Card, CardFault>
    requires kept { ∥ Kept symbols.old rules.old (counts draft.symbols 0) ∥₁ }
    requires new { draft.symbols ≡ 0 }
    ensures { MatchResult result
        (λ c. Kept symbols.new rules.new c
        × (symbol_lines symbols.old 0 rules.old 0 (lines text.now) ≡ accepted c symbols.new rules.new))
        (λ f. Blank symbols.old symbols.new rules.old rules.new
        × (symbol_lines symbols.old 0 rules.old 0 (lines text.now) ≡ refused f.refusal f.line)) }
{
    let mut draft = draft;
    let mut lines = Lines::new(text);
    let mut phase = SymbolPhase {
        draft: &mut draft,
        symbols,
        rules,
    };
    match phase.take_all(&mut lines) {
        Ok(first) => read_rules(draft, symbols, rules, first, &mut lines),
        Err(fault) => {
            draft.tear_up(symbols, rules);
            Err(fault)
        }
    }
}
