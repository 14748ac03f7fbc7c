// The test that the counted records of the two tables keep the card's rules.
ghost use Rattle.std.specs.Prelude.{◌≡◌, ◌+◌, ◌^◌, ◌<◌, ◌≤◌, IfSome, Decides};
ghost use Rattle.std.specs.List.{AllByRecursion};
ghost use Rattle.card.specs.Records.{arities, DistinctNames, Kept, WellFormedRule, WellFormedSymbol};
ghost use Rattle.card.specs.Scans.{due_after, due_behind, HoldsTerm, mentions, variable_of, Within};

use crate::name::{find, is_name};
use crate::record::{Card, Place, RuleRecord, SymbolRecord};

// A table has so many records at least, and a card counts so many of them at most.
const TABLE: usize = 64;

// The most children that a symbol takes.
const CHILDREN: u8 = 4;

// A rule's variables are numbered below this.
const VARIABLES: u8 = 8;

// Whether a record is that of a symbol.
fn is_symbol(symbol: &SymbolRecord) -> bool
    ensures { Decides result (WellFormedSymbol symbol.now) }
{
    symbol.arity <= CHILDREN && is_name(&symbol.name)
}

fn all_symbols(symbols: &[SymbolRecord]) -> bool
    ensures { Decides result (AllByRecursion WellFormedSymbol symbols.now) }
{
    symbols.iter().all(is_symbol)
}

// Whether no name comes twice: each name is found first where it stands.
fn names_distinct(symbols: &[SymbolRecord]) -> bool
    ensures { Decides result (DistinctNames symbols.now) }
{
    symbols
        .iter()
        .enumerate()
        .all(|(i, symbol)| find(symbols, &symbol.name) == Some(i))
}

// How many terms are still due behind a place, if it may stand where `due` of them are: an empty place where none is, and
// a symbol of the card or a variable below 8 where some are.
fn due_after(symbols: &[SymbolRecord], due: usize, place: Place) -> Option<usize>
    requires { due < 2 ^ 32 }
    ensures after { result ≡ due_after (arities symbols.now) due place }
    ensures few { IfSome result (λ n. n ≤ due + 255) }
{
    match place {
        Place::Empty if due == 0 => Some(0),
        Place::Symbol(f) if due > 0 => {
            let symbol = symbols.get(f as usize)?;
            Some(symbol.arity as usize + (due - 1))
        }
        Place::Variable(v) if due > 0 && v < VARIABLES => Some(due - 1),
        _ => None,
    }
}

// How many terms are still due behind all of these places, where one is due before them, if each may stand where it does. A `for`:
// that the number stays small is an invariant, and `try_fold` has no place for one.
fn due_behind(symbols: &[SymbolRecord], side: &[Place; 32]) -> Option<usize>
    ensures { result ≡ due_behind (arities symbols.now) 1 side.now }
{
    let mut due = 1;
    for place in side {
        due = due_after(symbols, due, *place)?;
    }
    Some(due)
}

// Whether a side holds a term: its places leave none due.
fn is_side(symbols: &[SymbolRecord], side: &[Place; 32]) -> bool
    ensures { Decides result (HoldsTerm (arities symbols.now) side.now) }
{
    due_behind(symbols, side) == Some(0)
}

// The variable that stands at a place, if one does.
fn variable_of(place: Place) -> Option<u8>
    ensures { result ≡ variable_of place }
{
    match place {
        Place::Variable(v) => Some(v),
        Place::Empty | Place::Symbol(_) => None,
    }
}

// Whether a variable stands at a place of a side.
fn has_variable(side: &[Place; 32], variable: u8) -> bool
    ensures { result ≡ mentions variable side.now }
{
    side.iter()
        .any(|place| variable_of(*place) == Some(variable))
}

// Whether each variable of one side is one of the other side's.
fn variables_within(inner: &[Place; 32], outer: &[Place; 32]) -> bool
    ensures { Decides result (Within inner.now outer.now) }
{
    inner
        .iter()
        .filter_map(|place| variable_of(*place))
        .all(|v| has_variable(outer, v))
}

// Whether a record is that of a rule over these symbols.
fn is_rule(symbols: &[SymbolRecord], rule: &RuleRecord) -> bool
    ensures { Decides result (WellFormedRule (arities symbols.now) rule.now) }
{
    if !is_side(symbols, &rule.left) || !is_side(symbols, &rule.right) {
        return false;
    }
    variable_of(rule.left[0]).is_none() && variables_within(&rule.right, &rule.left)
}

fn all_rules(symbols: &[SymbolRecord], rules: &[RuleRecord]) -> bool
    ensures { Decides result (AllByRecursion (WellFormedRule (arities symbols.now)) rules.now) }
{
    rules.iter().all(|rule| is_rule(symbols, rule))
}

// Whether both tables are long enough and their counted records keep the card's rules.
pub fn keeps_rules(symbols: &[SymbolRecord], rules: &[RuleRecord], card: Card) -> bool
    ensures { Decides result (Kept symbols.now rules.now card) }
{
    let (m, n) = (card.symbols, card.rules);
    if symbols.len() < TABLE || rules.len() < TABLE || m > TABLE || n > TABLE {
        return false;
    }
    let symbols = &symbols[..m];
    if !all_symbols(symbols) || !names_distinct(symbols) {
        return false;
    }
    all_rules(symbols, &rules[..n])
}
