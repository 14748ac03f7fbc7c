// Reading a rule line: left side, "=", right side.
ghost use Rattle.std.specs.Prelude.{◌≡◌, ℕ, List, [], take, MatchResult};
ghost use Rattle.reading.specs.Lines.{line_of, lone_variable, rule_line, side_grammar, SideRead, variables_of};
ghost use Rattle.reading.specs.Scanning.{at_start, scan, stuck};

use crate::fault::Fault;
use crate::limits::side_grammar;
use crate::name::{at_end, fault_here, next_is};
use crate::source::Source;
use crate::term::read_term;
use card::record::{Place, RuleRecord, SymbolRecord};

// For each variable whether a side has it.
fn side_variables(side: &[Place; 32]) -> [bool; 8]
    ensures { result ≡ variables_of side.now }
{
    let mut may = [false; 8];
    for place in side {
        match *place {
            // by index: of what is written through `get_mut` a proof learns nothing
            Place::Variable(v) if usize::from(v) < may.len() => may[usize::from(v)] = true,
            _ => {}
        }
    }
    may
}

// Whether a side is a variable alone.
fn lone_variable(side: &[Place; 32]) -> bool
    ensures { result ≡ lone_variable side.now }
{
    matches!(side[0], Place::Variable(_))
}

// A side with the variables that may stand in it. A source and the card's symbols have nothing to do with one another, so they stay
// two parameters.
fn read_side<S: Source>(
    src: &mut S,
    symbols: &[SymbolRecord],
    may: [bool; 8],
) -> Result<[Place; 32], Fault>
    ensures { MatchResult result
        (SideRead (side_grammar (take 64 symbols.now) may) (S.Source.rest src.old) (S.Source.rest src.new))
        (λ f. scan (side_grammar (take 64 symbols.now) may) (at_start []) [] (S.Source.rest src.old) ≡ stuck f (S.Source.rest src.new)) }
{
    let grammar = side_grammar(symbols, may);
    let mut side = [Place::Empty; 32];
    read_term(src, &grammar, &mut side, 0, 0)?;
    Ok(side)
}

// The rule of a line, behind as many rules as the card has.
pub fn read_rule_line<S: Source>(
    src: &mut S,
    symbols: &[SymbolRecord],
    rules: usize,
) -> Result<RuleRecord, Fault>
    ensures { line_of result (S.Source.rest src.new) ≡ rule_line (take 64 symbols.now) rules (S.Source.rest src.old) }
{
    if rules >= 64 {
        return Err(Fault::TooManyLines);
    }
    let left = read_side(src, symbols, [true; 8])?;
    if !next_is(src, b'=') {
        return Err(fault_here(src));
    }
    if lone_variable(&left) {
        return Err(Fault::LoneVariable);
    }
    src.advance();
    let right = read_side(src, symbols, side_variables(&left))?;
    at_end(src)?;
    Ok(RuleRecord { left, right })
}
