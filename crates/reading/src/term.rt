// Reading a term: its head, and its children if it has any, each of which is a term again.
ghost use Rattle.std.specs.Prelude.{◌≡◌, ℕ, ◌<◌, ◌≤◌, true, List, length, MatchResult};
ghost use Rattle.reading.specs.Grammars.{grammar_of};
ghost use Rattle.reading.specs.Progress.{Advanced, ChildEnded, ChildStuck, HeadRead, HeadStuck, Stopped};
ghost use Rattle.reading.specs.Scanning.{at_start, behind, variable_at};
ghost use Rattle.reading.specs.Sources.{at_letter};

use crate::fault::Fault;
use crate::grammar::Grammar;
use crate::name::{fault_here, next_is, read_name};
use crate::source::Source;
use card::name::{find, is_letter};
use card::record::Place;

// The head of a term: its first place, and how many children stand in the bracket behind it.
#[derive(Clone, Copy)]
struct Head {
    place: Place,
    children: u8,
}

// Where a term has to start: behind `filled` places, with `depth` brackets open around it.
#[derive(Clone, Copy)]
struct Start<'a> {
    grammar: &'a Grammar<'a>,
    filled: usize,
    depth: usize,
}

impl Start<'_> {
    // The variable of a byte that is no small letter.
    fn variable(self, b: u8) -> Result<u8, Fault>
        ensures { result ≡ variable_at self.entry.grammar.now.variables self.entry.grammar.now.places self.entry.filled b }
    {
        let may = self.grammar.variables.ok_or(Fault::WrongByte)?;
        if !matches!(b, b'A'..=b'H') {
            return Err(Fault::WrongByte);
        }
        if self.filled >= self.grammar.places {
            return Err(Fault::TooManyPlaces);
        }
        let v = b - b'A';
        if !may[usize::from(v)] {
            return Err(Fault::UnboundVariable);
        }
        Ok(v)
    }

    // A symbol's name, judged by the byte behind it; the bracket of one that takes children is taken too.
    #[tactic(auto, using(crate::proofs::Heads::found_inside))]
    fn read_symbol<S: Source>(self, src: &mut S) -> Result<Head, Fault>
        requires letter { at_letter (S.Source.rest src.old) ≡ true }
        requires room { self.filled < self.grammar.now.places }
        ensures { let G = grammar_of self.entry.grammar.now in MatchResult result
            (λ h. HeadRead G self.entry.filled self.entry.depth (S.Source.rest src.old) (S.Source.rest src.new) h.place h.children)
            (λ f. HeadStuck G self.entry.filled self.entry.depth (S.Source.rest src.old) (S.Source.rest src.new) f) }
    {
        let name = read_name(src)?;
        let k = find(self.grammar.symbols, &name).ok_or(Fault::UnknownName)?;
        let head = Head {
            place: Place::Symbol(k as u8),
            children: self.grammar.symbols[k].arity,
        };
        match (head.children, next_is(src, b'(')) {
            (0, false) => return Ok(head),
            (0, true) => return Err(Fault::ConstantOpened),
            (_, false) => return Err(Fault::BracketMissing),
            (_, true) if self.depth >= self.grammar.brackets => return Err(Fault::TooDeep),
            (_, true) => src.advance(),
        }
        Ok(head)
    }

    // The head of the term that comes next.
    fn read_head<S: Source>(self, src: &mut S) -> Result<Head, Fault>
        ensures { let G = grammar_of self.entry.grammar.now in MatchResult result
            (λ h. HeadRead G self.entry.filled self.entry.depth (S.Source.rest src.old) (S.Source.rest src.new) h.place h.children)
            (λ f. HeadStuck G self.entry.filled self.entry.depth (S.Source.rest src.old) (S.Source.rest src.new) f) }
    {
        let b = src.peek().ok_or(Fault::EarlyEnd)?;
        if is_letter(b) {
            if self.filled >= self.grammar.places {
                return Err(Fault::TooManyPlaces);
            }
            return self.read_symbol(src);
        }
        let v = self.variable(b)?;
        src.advance();
        Ok(Head {
            place: Place::Variable(v),
            children: 0,
        })
    }
}

// The byte behind a child: "," if `left` more are due in its bracket, or the ")" that closes it.
fn end_child<S: Source>(src: &mut S, left: u8) -> Result<(), Fault>
    ensures { MatchResult result
        (λ _. ChildEnded left (S.Source.rest src.old) (S.Source.rest src.new))
        (λ f. ChildStuck left (S.Source.rest src.old) (S.Source.rest src.new) f) }
{
    match (src.peek(), left) {
        (Some(b','), 0) => Err(Fault::TooManyChildren),
        (Some(b')'), 0) | (Some(b','), _) => {
            src.advance();
            Ok(())
        }
        (Some(b')'), _) => Err(Fault::TooFewChildren),
        _ => Err(fault_here(src)),
    }
}

// The term that comes next: its places go into `out` from `filled` on, and the answer is how many there are then.
// `depth` brackets are open around it. The count stands beside `out` since that is fixed memory of the caller's, of 32 places
// or 4,096.
pub fn read_term<S: Source>(
    src: &mut S,
    grammar: &Grammar<'_>,
    out: &mut [Place],
    filled: usize,
    depth: usize,
) -> Result<usize, Fault>
    requires long { grammar.now.places ≤ length out.old }
    requires room { filled ≤ grammar.now.places }
    ensures { MatchResult result
        (λ n. Advanced (grammar_of grammar.now) at_start behind depth filled n out.old out.new (S.Source.rest src.old) (S.Source.rest src.new))
        (λ f. Stopped (grammar_of grammar.now) at_start depth filled out.old (S.Source.rest src.old) (S.Source.rest src.new) f) }
{
    let start = Start {
        grammar: &*grammar,
        filled,
        depth,
    };
    let head = start.read_head(src)?;
    out[filled] = head.place;
    let mut filled = filled + 1;
    // a count of children still due, not an index into anything
    for left in (0..head.children).rev() {
        filled = read_term(src, grammar, out, filled, depth + 1)?;
        end_child(src, left)?;
    }
    Ok(filled)
}
