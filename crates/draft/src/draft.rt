// The two phases of a draft.
ghost use Rattle.std.specs.Prelude.{◌≡◌, ℕ, ◌+◌, ◌<◌, List, length, take, replicate, MatchResult, nat_le};
ghost use Rattle.card.specs.Records.{blank_rule, blank_symbol, Kept};
ghost use Rattle.card.specs.declared.refusal.Refusal.TheVariants.{BrokenTable};
ghost use Rattle.draft.specs.Drafts.{counts, Refused, RuleTaken, SymbolTaken};
ghost use Rattle.reading.specs.Lines.{rule_line, symbol_line};

use crate::wipe::wipe;
use card::check::keeps_rules;
use card::record::{Card, RuleRecord, SymbolRecord};
use card::refusal::Refusal;
use reading::rule::read_rule_line;
use reading::source::Source;
use reading::symbol::read_symbol_line;

// The two tables come as two parameters and not as one value: each call says by their types which of them it may write. And the
// drafts are two types and not one with a parameter, though three of their methods are alike: so a symbol that is given late is a
// mismatch of types.

// A draft that takes symbol lines.
pub struct SymbolDraft {
    symbols: usize,
}

// A draft whose symbols were ended, which takes rule lines.
pub struct RuleDraft {
    symbols: usize,
    rules: usize,
}

// Letting a draft go asks for more symbols than a card has. No call leaves a draft so, and nobody can show it of one: a draft
// starts with no symbol, and a symbol is counted only where there are fewer than 64.
impl Drop for SymbolDraft {
    fn drop(self)
        requires { 64 < self.symbols }
    {
        let SymbolDraft { symbols: _ } = self;
    }
}

impl Drop for RuleDraft {
    fn drop(self)
        requires { 64 < self.symbols }
    {
        let RuleDraft {
            symbols: _,
            rules: _,
        } = self;
    }
}

fn tested(symbols: &[SymbolRecord], rules: &[RuleRecord], card: Card) -> Result<(), Refusal>
    ensures { MatchResult result (λ _. Kept symbols.now rules.now card) (λ f. (f ≡ BrokenTable) × (Kept symbols.now rules.now card → ⊥)) }
{
    if keeps_rules(symbols, rules, card) {
        return Ok(());
    }
    Err(Refusal::BrokenTable)
}

fn blank_tables(symbols: &mut [SymbolRecord], rules: &mut [RuleRecord])
    ensures symbols { symbols.new ≡ replicate (length symbols.old) blank_symbol }
    ensures rules { rules.new ≡ replicate (length rules.old) blank_rule }
{
    wipe(symbols, SymbolRecord::default());
    wipe(rules, RuleRecord::default());
}

impl SymbolDraft {
    // How many records are counted: no rules yet.
    fn counts(&self) -> Card
        ensures { result ≡ counts self.now.symbols 0 }
    {
        Card {
            symbols: self.symbols,
            rules: 0,
        }
    }

    // A draft without symbols.
    pub fn start(symbols: &[SymbolRecord], rules: &[RuleRecord]) -> Result<SymbolDraft, Refusal>
        ensures { MatchResult result (λ d. (d.symbols ≡ 0) × Kept symbols.now rules.now (counts 0 0)) (λ f. (f ≡ BrokenTable) × (Kept symbols.now rules.now (counts 0 0) → ⊥)) }
    {
        tested(
            symbols,
            rules,
            Card {
                symbols: 0,
                rules: 0,
            },
        )?;
        Ok(SymbolDraft { symbols: 0 })
    }

    // A symbol line: its record is written behind the others.
    pub fn take<S: Source>(
        &mut self,
        symbols: &mut [SymbolRecord],
        rules: &[RuleRecord],
        line: &mut S,
    ) -> Result<(), Refusal>
        ensures { MatchResult result
            (λ _. (self.new.symbols ≡ self.old.symbols + 1)
            × SymbolTaken self.old.symbols (S.Source.rest line.old) rules.now symbols.old symbols.new)
            (λ f. (self.new ≡ self.old) × (symbols.new ≡ symbols.old)
            × Refused (Kept symbols.old rules.now (counts self.old.symbols 0))
            (symbol_line (take self.old.symbols symbols.old) (S.Source.rest line.old)) (S.Source.rest line.new) f) }
    {
        tested(symbols, rules, self.counts())?;
        let n = self.symbols;
        let symbol = read_symbol_line(line, &symbols[..n])?;
        symbols[n] = symbol;
        self.symbols = n + 1;
        Ok(())
    }

    // No more symbols. Refused, the draft is given back.
    pub fn end(
        self,
        symbols: &[SymbolRecord],
        rules: &[RuleRecord],
    ) -> Result<RuleDraft, (Refusal, SymbolDraft)>
        ensures { MatchResult result
            (λ d. (d.symbols ≡ self.symbols) × (d.rules ≡ 0) × Kept symbols.now rules.now (counts self.symbols 0))
            (λ f. (f.0 ≡ BrokenTable) × (f.1 ≡ self) × (Kept symbols.now rules.now (counts self.symbols 0) → ⊥)) }
    {
        if let Err(refusal) = tested(symbols, rules, self.counts()) {
            return Err((refusal, self));
        }
        let SymbolDraft { symbols: n } = self;
        Ok(RuleDraft {
            symbols: n,
            rules: 0,
        })
    }

    // Both tables become blank.
    pub fn tear_up(self, symbols: &mut [SymbolRecord], rules: &mut [RuleRecord])
        ensures symbols { symbols.new ≡ replicate (length symbols.old) blank_symbol }
        ensures rules { rules.new ≡ replicate (length rules.old) blank_rule }
    {
        let SymbolDraft { symbols: _ } = self;
        blank_tables(symbols, rules);
    }
}

impl RuleDraft {
    // How many records are counted.
    fn counts(&self) -> Card
        ensures { result ≡ counts self.now.symbols self.now.rules }
    {
        Card {
            symbols: self.symbols,
            rules: self.rules,
        }
    }

    // Whether one symbol more would be too many.
    pub fn has_all_symbols(&self) -> bool
        ensures { result ≡ nat_le 64 self.now.symbols }
    {
        self.symbols >= 64
    }

    // A rule line: its record is written behind the others.
    pub fn take<S: Source>(
        &mut self,
        symbols: &[SymbolRecord],
        rules: &mut [RuleRecord],
        line: &mut S,
    ) -> Result<(), Refusal>
        ensures { MatchResult result
            (λ _. (self.new.symbols ≡ self.old.symbols) × (self.new.rules ≡ self.old.rules + 1)
            × RuleTaken self.old.symbols self.old.rules (S.Source.rest line.old) symbols.now rules.old rules.new)
            (λ f. (self.new ≡ self.old) × (rules.new ≡ rules.old)
            × Refused (Kept symbols.now rules.old (counts self.old.symbols self.old.rules))
            (rule_line (take self.old.symbols symbols.now) self.old.rules (S.Source.rest line.old)) (S.Source.rest line.new) f) }
    {
        tested(symbols, rules, self.counts())?;
        let n = self.rules;
        let rule = read_rule_line(line, &symbols[..self.symbols], n)?;
        rules[n] = rule;
        self.rules = n + 1;
        Ok(())
    }

    // The card of the draft. Refused, the draft is given back.
    pub fn accept(
        self,
        symbols: &[SymbolRecord],
        rules: &[RuleRecord],
    ) -> Result<Card, (Refusal, RuleDraft)>
        ensures { MatchResult result
            (λ c. (c ≡ counts self.symbols self.rules) × Kept symbols.now rules.now c)
            (λ f. (f.0 ≡ BrokenTable) × (f.1 ≡ self) × (Kept symbols.now rules.now (counts self.symbols self.rules) → ⊥)) }
    {
        let card = self.counts();
        if let Err(refusal) = tested(symbols, rules, card) {
            return Err((refusal, self));
        }
        let RuleDraft {
            symbols: _,
            rules: _,
        } = self;
        Ok(card)
    }

    // Both tables become blank.
    pub fn tear_up(self, symbols: &mut [SymbolRecord], rules: &mut [RuleRecord])
        ensures symbols { symbols.new ≡ replicate (length symbols.old) blank_symbol }
        ensures rules { rules.new ≡ replicate (length rules.old) blank_rule }
    {
        let RuleDraft {
            symbols: _,
            rules: _,
        } = self;
        blank_tables(symbols, rules);
    }
}
