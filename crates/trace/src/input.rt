// The card and the recipe that the program is given, as explicit terms.
use anyhow::Context;
use card::name::letters;
use card::record;
use card::record::{RuleRecord, SymbolRecord};
use explicit::card::{Card, Rule, Symbol};
use explicit::term::{Term, ground};
use explicit::tree::Tree;
use notation::place::{Place, first_term};
use std::alloc::{AllocError, Global};
use std::io::{ErrorKind, Read};
use std::{fs, str};

// The bytes of card.txt; a card that is not there counts as empty.
pub fn card_text(rt: &HostRuntime) -> anyhow::Result<Vec<u8>> {
    match fs::read(rt, "card.txt") {
        Err(error) if error.kind() == ErrorKind::NotFound => Ok(Vec::new(rt.alloc())),
        read => Ok(read?),
    }
}

// Standard input up to its first byte 10.
pub fn recipe_text(rt: &HostRuntime) -> anyhow::Result<Vec<u8>> {
    let mut text = Vec::new(rt.alloc());
    rt.stdin().read_to_end(&mut text)?;
    if let Some(end) = text.iter().position(|b| *b == b'\n') {
        text.truncate(end);
    }
    Ok(text)
}

// The place of an explicit term, where the record has one.
fn place(place: record::Place) -> Option<Place> {
    match place {
        record::Place::Empty => None,
        record::Place::Symbol(f) => Some(Place::Symbol(f)),
        record::Place::Variable(v) => Some(Place::Variable(v)),
    }
}

fn places(heap: Global, side: &[record::Place]) -> Result<Vec<Place>, AllocError> {
    side.iter().copied().filter_map(place).collect(heap)
}

fn term(heap: Global, symbols: &[Symbol], side: &[record::Place]) -> anyhow::Result<Term> {
    first_term(heap, symbols, &places(heap, side)?)?.context("a term without places")
}

fn symbol(heap: Global, record: &SymbolRecord) -> anyhow::Result<Symbol> {
    Ok(Symbol {
        name: String::from_str(heap, str::from_utf8(letters(&record.name))?)?,
        arity: record.arity,
    })
}

fn symbols(heap: Global, records: &[SymbolRecord]) -> anyhow::Result<Vec<Symbol>> {
    let mut symbols = Vec::new(heap);
    for record in records {
        symbols.push(symbol(heap, record)?)?;
    }
    Ok(symbols)
}

fn rules(heap: Global, symbols: &[Symbol], records: &[RuleRecord]) -> anyhow::Result<Vec<Rule>> {
    // a `for`: to make a rule can fail. Rules are numbered from 1, and a card has 64 at most
    let mut rules = Vec::new(heap);
    for (number, record) in (1..u16::MAX).zip(records) {
        rules.push(Rule {
            number,
            left: term(heap, symbols, &record.left)?,
            right: term(heap, symbols, &record.right)?,
        })?;
    }
    Ok(rules)
}

// The card of counted records.
pub fn card(
    heap: Global,
    symbol_records: &[SymbolRecord],
    rule_records: &[RuleRecord],
) -> anyhow::Result<Card> {
    let symbols = symbols(heap, symbol_records)?;
    let rules = rules(heap, &symbols, rule_records)?;
    Ok(Card { symbols, rules })
}

// The tree of a recipe's places.
pub fn recipe(heap: Global, symbols: &[Symbol], side: &[record::Place]) -> anyhow::Result<Tree> {
    ground(heap, &term(heap, symbols, side)?)?.context("a variable in the recipe")
}
