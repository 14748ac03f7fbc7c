// The grammars of the product. A card has at most 64 symbols, so no more are looked at.
ghost use Rattle.std.specs.Prelude.{◌≡◌, ◌≤◌, length, take};
ghost use Rattle.reading.specs.Grammars.{grammar_of};
ghost use Rattle.reading.specs.Lines.{side_grammar};
ghost use Rattle.reading.specs.Recipes.{recipe_grammar};

use crate::grammar::Grammar;
use card::record::SymbolRecord;

// As many symbols as a card may have.
const SYMBOLS: usize = 64;

// The symbols that are looked at.
fn first_symbols(symbols: &[SymbolRecord]) -> &[SymbolRecord]
    ensures first { result.now ≡ take 64 symbols.now }
    ensures few { length result.now ≤ 64 }
{
    &symbols[..SYMBOLS.min(symbols.len())]
}

// The two grammars differ in their limits only. They stay two functions, since one that is told all limits would be the record again.

// What a side of a rule goes by, with the variables that may stand in it.
pub fn side_grammar(symbols: &[SymbolRecord], may: [bool; 8]) -> Grammar<'_>
    ensures { grammar_of result ≡ side_grammar (take 64 symbols.now) may }
{
    Grammar {
        symbols: first_symbols(symbols),
        variables: Some(may),
        places: 32,
        brackets: 32,
    }
}

// What a recipe goes by: no variables, as many places as its bytes could have, and 64 brackets.
pub fn recipe_grammar(symbols: &[SymbolRecord]) -> Grammar<'_>
    ensures { grammar_of result ≡ recipe_grammar (take 64 symbols.now) }
{
    Grammar {
        symbols: first_symbols(symbols),
        variables: None,
        places: 4096,
        brackets: 64,
    }
}
