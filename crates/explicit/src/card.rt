// Cards: symbols with their names and arities, and numbered rules.
ghost use Rattle.std.specs.Prelude.{◌≡◌};
ghost use Rattle.explicit.specs.Meaning.{name_of, signature};
ghost use Rattle.std.specs.Option.{unwrap_or};

use crate::term::Term;

#[derive(Drop)]
pub struct Symbol {
    pub name: String,
    pub arity: u8,
}

#[derive(Drop)]
pub struct Rule {
    pub number: u16,
    pub left: Term,
    pub right: Term,
}

// A symbol's number is its place in the list.
#[derive(Drop)]
pub struct Card {
    pub symbols: Vec<Symbol>,
    pub rules: Vec<Rule>,
}

// The name of a symbol, and nothing for a number past the last.
pub fn name(symbols: &[Symbol], symbol: u8) -> &str
    ensures { result.now ≡ name_of symbols.now symbol }
{
    symbols.get(symbol as usize).map_or("", |s| s.name.as_str())
}

// How many children a symbol takes: none for a number past the last.
pub fn arity(symbols: &[Symbol], symbol: u8) -> u8
    ensures { result ≡ unwrap_or (signature symbols.now symbol) 0 }
{
    symbols.get(symbol as usize).map_or(0, |s| s.arity)
}
