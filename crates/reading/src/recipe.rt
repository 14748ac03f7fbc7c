// Reading a recipe text.
ghost use Rattle.std.specs.Prelude.{◌≡◌, ℕ, ◌≤◌, List, take, drop, Ok, Err, MatchResult};
ghost use Rattle.reading.specs.Recipes.{recipe};

use crate::limits::recipe_grammar;
use crate::name::at_end;
use crate::source::Line;
use crate::term::read_term;
use card::record::{Place, SymbolRecord};
use card::refusal::Refusal;

// The places of a recipe's tree, at the front of `out`, and their number. The places behind them stay as they were.
pub fn read_recipe(
    text: &[u8],
    symbols: &[SymbolRecord],
    out: &mut [Place; 4096],
) -> Result<usize, Refusal>
    ensures { MatchResult result
        (λ n. (recipe (take 64 symbols.now) text.now ≡ Ok (take n out.new)) × (n ≤ 4096) × (drop n out.new ≡ drop n out.old))
        (λ f. recipe (take 64 symbols.now) text.now ≡ Err f) }
{
    if text.len() > 4096 {
        return Err(Refusal::TextTooLong);
    }
    let grammar = recipe_grammar(symbols);
    let mut src = Line::new(text);
    let n = read_term(&mut src, &grammar, out, 0, 0)?;
    at_end(&src)?;
    Ok(n)
}
