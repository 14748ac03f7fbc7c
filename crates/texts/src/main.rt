// Reads the texts of standard input and prints what the readers answer, one line for each.
//
// Byte 0 ends a text. Its first byte says what it is: "c" a card text, anything else a recipe. A recipe is read on the card
// of the last card text, which is the empty card if that text was refused.

#![tactic(auto)]

use card::record::{Card, RuleRecord, SymbolRecord};
use cardreader::fault::CardFault;
use cardreader::reader::read_card;
use reading::owned::read_owned_recipe;
use std::fmt;
use std::io::{self, Read};

// What was read: a card with its counts, or a recipe with the number of its places.
#[derive(Clone, Copy)]
enum Answer {
    Card(Card),
    Recipe(usize),
}

impl fmt::Display for Answer {
    fn fmt<W: fmt::Write>(&self, f: &mut fmt::Formatter<W>) -> fmt::Result {
        match self {
            Answer::Card(Card { symbols, rules }) => write!(f, "card {symbols} {rules}"),
            Answer::Recipe(places) => write!(f, "recipe {places}"),
        }
    }
}

// What a card text is read into, and the card that was read last.
#[derive(Drop)]
struct Tables {
    buffer: [u8; 16384],
    symbols: [SymbolRecord; 64],
    rules: [RuleRecord; 64],
    card: Card,
}

impl Tables {
    fn blank() -> Tables {
        Tables {
            buffer: [0; 16384],
            symbols: [SymbolRecord::default(); 64],
            rules: [RuleRecord::default(); 64],
            card: Card::default(),
        }
    }

    fn read_card(&mut self, text: &[u8]) -> Result<Answer, CardFault> {
        self.card = Card::default();
        self.card = read_card(text, &mut self.buffer, &mut self.symbols, &mut self.rules)?;
        Ok(Answer::Card(self.card))
    }

    fn read_recipe(&self, text: &[u8]) -> Result<Answer, CardFault> {
        let symbols = self.symbols.get(..self.card.symbols).unwrap_or(&[]);
        let recipe = read_owned_recipe(text, symbols)?;
        Ok(Answer::Recipe(recipe.places().len()))
    }
}

// Both outcomes are answers of the program, so there is nothing for `?` to pass on.
fn print_answer(rt: &HostRuntime, answer: Result<Answer, CardFault>) -> io::Result<()> {
    match answer {
        Ok(answer) => rt.println(answer),
        Err(fault) => rt.println(fault),
    }
}

// A text that no byte 0 ends is passed over.
fn print_answers(rt: &HostRuntime, input: &[u8]) -> anyhow::Result<()> {
    let mut tables = Tables::blank();
    for text in input.split_inclusive(|b| *b == 0) {
        let Some(text) = text.strip_suffix(&[0]) else {
            continue;
        };
        match text.split_first() {
            Some((b'c', card)) => print_answer(rt, tables.read_card(card))?,
            Some((_, recipe)) => print_answer(rt, tables.read_recipe(recipe))?,
            None => {}
        }
    }
    Ok(())
}

fn main(rt: HostRuntime) -> anyhow::Result<()> {
    let mut input = Vec::new(rt.alloc());
    rt.stdin().read_to_end(&mut input)?;
    print_answers(&rt, &input)
}
