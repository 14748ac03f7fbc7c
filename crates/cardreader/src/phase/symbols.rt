// Lines that are taken as symbols.
ghost use Rattle.std.specs.Prelude.{◌≡◌, MatchResult};
ghost use Rattle.cardreader.specs.CardTexts.{refused};
ghost use Rattle.cardreader.specs.Phases.{SameSymbolPhase};
ghost use Rattle.cardreader.specs.Reading.{symbols_outcome, SymbolsEnded};
ghost use Rattle.cardreader.specs.Taking.{BreaksSymbol, TakesSymbol};

use crate::fault::CardFault;
use crate::phase::SymbolPhase;
use cardtext::cursor::Lines;
use cardtext::line::is_rule;
use reading::source::Line;

impl SymbolPhase<'_> {
    // One line; its number goes with a refusal.
    fn take(&mut self, line: &[u8], number: usize) -> Result<(), CardFault>
        ensures same { SameSymbolPhase self.old self.new }
        ensures cases { MatchResult result
            (λ _. TakesSymbol self.old.draft.now self.new.draft.now self.old.rules.now self.old.symbols.now self.new.symbols.now line.now)
            (λ f. (self.new.draft.now ≡ self.old.draft.now) × (self.new.symbols.now ≡ self.old.symbols.now) × (f.line ≡ number)
            × BreaksSymbol self.old.draft.now self.old.symbols.now line.now f.refusal) }
    {
        self.draft
            .take(self.symbols, self.rules, &mut Line::new(line))
            .map_err(|refusal| CardFault {
                refusal,
                line: number,
            })
    }

    // The lines still to come; the first that states a rule ends them. No `find`: each line before it is taken, with the
    // number that the cursor gives it.
    pub fn take_all<'t>(&mut self, lines: &mut Lines<'t>) -> Result<Option<&'t [u8]>, CardFault>
        ensures same { SameSymbolPhase self.old self.new }
        ensures cases { MatchResult result
            (λ first. SymbolsEnded self.new.draft.now.symbols self.new.symbols.now self.old.rules.now lines.new first
            (symbols_outcome self.old.draft.now self.old.symbols.now self.old.rules.now lines.old))
            (λ f. symbols_outcome self.old.draft.now self.old.symbols.now self.old.rules.now lines.old ≡ refused f.refusal f.line) }
    {
        while let Some(line) = lines.next() {
            if line.is_empty() {
                continue;
            }
            if is_rule(line) {
                return Ok(Some(line));
            }
            self.take(line, lines.number())?;
        }
        Ok(None)
    }
}
