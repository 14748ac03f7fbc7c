// Rewrites a recipe outermost by the rules of a card, and prints the recipe, each step, why it stopped, and the finished
// sheet; or why the card or the recipe is refused.

#![tactic(auto)]

mod input;

use card::record::{RuleRecord, SymbolRecord};
use card::refusal::Refusal;
use cardreader::fault::CardFault;
use cardreader::reader::read_card;
use explicit::card::{Card, Symbol, name};
use explicit::tree::Tree;
use listing::sheet::{Row, sheet};
use notation::text::line_of;
use reading::owned::{Recipe, read_owned_recipe};
use reference::step::{Step, outermost_step};
use std::alloc::Global;

const BUDGET: u32 = 1000;

// The tree's text, marked where it was cut.
fn text_of(heap: Global, symbols: &[Symbol], tree: &Tree) -> anyhow::Result<String> {
    let line = line_of(heap, symbols, tree)?;
    let mut text = String::from_utf8(line.bytes)?;
    if line.cut {
        text.push_str(" (cut)")?;
    }
    Ok(text)
}

fn print_step(
    rt: &HostRuntime,
    symbols: &[Symbol],
    number: u32,
    step: &Step,
) -> anyhow::Result<()> {
    let heap = rt.alloc();
    let rule = step.rule;
    let redex = text_of(heap, symbols, &step.redex)?;
    let after = text_of(heap, symbols, &step.after)?;
    println!(rt; "step {number} rule {rule} {redex}\n{after}")?;
    Ok(())
}

// Prints the steps up to the budget, the stop word and how many steps there were. Answers the last tree.
fn rewrite(rt: &HostRuntime, card: &Card, recipe: Tree) -> anyhow::Result<Tree> {
    let heap = rt.alloc();
    let mut tree = recipe;
    // a `for` over how many steps were done: each starts from the last one's tree, and can fail
    for count in 0..BUDGET {
        let Some(step) = outermost_step(heap, card, &tree)? else {
            println!(rt; "normal {count}")?;
            return Ok(tree);
        };
        print_step(rt, &card.symbols, count + 1, &step)?;
        tree = step.after;
    }
    let at_rest = outermost_step(heap, card, &tree)?.is_none();
    let stop = if at_rest { "normal" } else { "spent" };
    println!(rt; "{stop} {BUDGET}")?;
    Ok(tree)
}

// A row's line: its number, its symbol's name and its children's numbers.
fn push_row(text: &mut String, symbols: &[Symbol], number: usize, row: &Row) -> anyhow::Result<()> {
    let symbol = name(symbols, row.symbol);
    write!(text, "{number} {symbol}")?;
    for child in &row.children {
        write!(text, " {child}")?;
    }
    text.push_str("\n")?;
    Ok(())
}

// Prints the sheet, and where its last line, the root's, begins.
fn print_sheet(rt: &HostRuntime, symbols: &[Symbol], rows: &[Row]) -> anyhow::Result<()> {
    let mut text = String::new(rt.alloc());
    let mut top = 0;
    for (i, row) in rows.iter().enumerate() {
        top = text.len();
        push_row(&mut text, symbols, i + 1, row)?;
    }
    let root = rows.len();
    println!(rt; "{text}top {root} at {top}")?;
    Ok(())
}

// Why the program has nothing to rewrite: a refusal, which is an answer, or an error of reading.
#[derive(Drop)]
enum Failure {
    Refused(CardFault),
    Failed(anyhow::Error),
}

impl From<CardFault> for Failure {
    fn from(fault: CardFault) -> Failure {
        Failure::Refused(fault)
    }
}

impl From<Refusal> for Failure {
    fn from(refusal: Refusal) -> Failure {
        Failure::Refused(refusal.into())
    }
}

impl From<anyhow::Error> for Failure {
    fn from(error: anyhow::Error) -> Failure {
        Failure::Failed(error)
    }
}

// Reads the card, and behind it the recipe. The card's terms are made before the recipe is looked at.
fn read_task(rt: &HostRuntime) -> Result<(Card, Recipe), Failure> {
    let mut buffer = [0; 16384];
    let mut symbols = [SymbolRecord::default(); 64];
    let mut rules = [RuleRecord::default(); 64];
    let text = input::card_text(rt)?;
    let counts = read_card(&text, &mut buffer, &mut symbols, &mut rules)?;
    let symbols = &symbols[..counts.symbols];
    let card = input::card(rt.alloc(), symbols, &rules[..counts.rules])?;
    let recipe = read_owned_recipe(&input::recipe_text(rt)?, symbols)?;
    Ok((card, recipe))
}

// Rewrites the recipe, and prints it and what comes of it.
fn run(rt: &HostRuntime, card: &Card, recipe: &Recipe) -> anyhow::Result<()> {
    let heap = rt.alloc();
    let recipe = input::recipe(heap, &card.symbols, recipe.places())?;
    rt.println(text_of(heap, &card.symbols, &recipe)?)?;
    let tree = rewrite(rt, card, recipe)?;
    let rows = sheet(heap, &tree)?;
    print_sheet(rt, &card.symbols, &rows)
}

fn main(rt: HostRuntime) -> anyhow::Result<()> {
    // a refusal is an answer of the program, so it is printed and not passed on
    match read_task(&rt) {
        Ok((card, recipe)) => run(&rt, &card, &recipe),
        Err(Failure::Refused(fault)) => Ok(rt.println(fault)?),
        Err(Failure::Failed(error)) => Err(error),
    }
}
