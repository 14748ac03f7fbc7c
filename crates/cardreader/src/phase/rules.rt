// Lines that are taken as rules.
ghost use Rattle.std.specs.Prelude.{◌≡◌, MatchResult};
ghost use Rattle.cardreader.specs.CardTexts.{accepted, misplaced, Outcome, refused};
ghost use Rattle.cardreader.specs.Phases.{SameRulePhase};
ghost use Rattle.cardreader.specs.Reading.{rules_outcome, RulesRead, SymbolsEnded};
ghost use Rattle.cardreader.specs.Taking.{BreaksRule, TakesRule};
ghost use Rattle.draft.specs.Drafts.{counts};

use crate::fault::CardFault;
use crate::phase::RulePhase;
use card::refusal::Refusal;
use cardtext::cursor::Lines;
use cardtext::line::is_rule;
use reading::source::Line;

impl RulePhase<'_> {
    // One line; its number goes with a refusal.
    fn take(&mut self, line: &[u8], number: usize) -> Result<(), CardFault>
        ensures same { SameRulePhase self.old self.new }
        ensures cases { MatchResult result
            (λ _. TakesRule self.old.draft.now self.new.draft.now self.old.symbols.now self.old.rules.now self.new.rules.now line.now)
            (λ f. (self.new.draft.now ≡ self.old.draft.now) × (self.new.rules.now ≡ self.old.rules.now) × (f.line ≡ number)
            × BreaksRule self.old.draft.now self.old.symbols.now line.now f.refusal) }
    {
        self.draft
            .take(self.symbols, self.rules, &mut Line::new(line))
            .map_err(|refusal| CardFault {
                refusal,
                line: number,
            })
    }

    // Why a symbol line behind a rule line is refused.
    fn misplaced_symbol(&self) -> Refusal
        ensures { result ≡ misplaced self.now.draft.now.symbols }
    {
        if self.draft.has_all_symbols() {
            return Refusal::OverLimit;
        }
        Refusal::Malformed
    }

    // The lines still to come.
    fn take_all(&mut self, lines: &mut Lines<'_>) -> Result<(), CardFault>
        ensures same { SameRulePhase self.old self.new }
        ensures cases { MatchResult result
            (λ _. RulesRead self.old.draft.now self.new.draft.now self.old.symbols.now self.old.rules.now self.new.rules.now lines.old)
            (λ f. rules_outcome self.old.draft.now self.old.symbols.now self.old.rules.now lines.old ≡ refused f.refusal f.line) }
    {
        while let Some(line) = lines.next() {
            if line.is_empty() {
                continue;
            }
            if !is_rule(line) {
                return Err(CardFault {
                    refusal: self.misplaced_symbol(),
                    line: lines.number(),
                });
            }
            self.take(line, lines.number())?;
        }
        Ok(())
    }

    // The line that ended the symbols, if one did, and the lines behind it.
    pub fn take_rest(
        &mut self,
        first: Option<&[u8]>,
        lines: &mut Lines<'_>,
    ) -> Result<(), CardFault>
        requires { self.old.draft.now.rules ≡ 0 }
        ensures same { SameRulePhase self.old self.new }
        ensures cases { MatchResult result
            (λ _. (o : Outcome) → SymbolsEnded self.old.draft.now.symbols self.old.symbols.now self.old.rules.now lines.old first.entry o
            → o ≡ accepted (counts self.new.draft.now.symbols self.new.draft.now.rules) self.old.symbols.now self.new.rules.now)
            (λ f. (o : Outcome) → SymbolsEnded self.old.draft.now.symbols self.old.symbols.now self.old.rules.now lines.old first.entry o
            → o ≡ refused f.refusal f.line) }
    {
        let Some(line) = first else {
            return Ok(());
        };
        let number = lines.number();
        self.take(line, number)?;
        self.take_all(lines)
    }
}
