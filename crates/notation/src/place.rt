// Terms from the preorder list of their places.
ghost use Rattle.std.specs.Prelude.{◌≡◌, map, drop, IfOk, OnOk};
ghost use Rattle.explicit.specs.Meaning.{signature, term_of, terms_of};
ghost use Rattle.notation.specs.Stack.{first, place_of, stack_of};
ghost use Rattle.rewriting.specs.Places.{firsts, forest as forest_of, grow as grow_terms};
ghost use Rattle.std.specs.Option.{option_map};

use explicit::card::{Symbol, arity};
use explicit::term::Term;
use std::alloc::{AllocError, Global};

// One place of a term. None is empty, as one of a rule's record may be.
#[derive(Clone, Copy)]
pub enum Place {
    Symbol(u8),
    Variable(u8),
}

// As many terms from the top of the stack, or all of a smaller stack. The first is on top.
fn take_terms(stack: &mut Vec<Term>, count: usize) -> Result<Vec<Term>, AllocError>
    ensures { IfOk result (λ ts. (terms_of ts.items ≡ firsts count (stack_of stack.old.items)) × (stack_of stack.new.items ≡ drop count (stack_of stack.old.items))) }
{
    let mut terms = stack.split_off(stack.len().saturating_sub(count))?;
    terms.reverse();
    Ok(terms)
}

// One place in front of the terms that the places behind it make.
fn grow(symbols: &[Symbol], place: Place, stack: &mut Vec<Term>) -> Result<(), AllocError>
    ensures { OnOk result (stack_of stack.new.items ≡ grow_terms (signature symbols.now) (place_of place) (stack_of stack.old.items)) }
{
    let term = match place {
        Place::Variable(v) => Term::Variable(v),
        Place::Symbol(f) => Term::Symbol(f, take_terms(stack, arity(symbols, f) as usize)?),
    };
    stack.push(term)?;
    Ok(())
}

// The terms that the places make, read from the last place to the first: the first term is on top.
pub fn forest(heap: Global, symbols: &[Symbol], places: &[Place]) -> Result<Vec<Term>, AllocError>
    ensures { IfOk result (λ v. stack_of v.items ≡ forest_of (signature symbols.now) (map place_of places.now)) }
{
    let mut stack = Vec::new(heap);
    for place in places.iter().rev() {
        grow(symbols, *place, &mut stack)?;
    }
    Ok(stack)
}

// The first term that the places make, if they make any.
pub fn first_term(
    heap: Global,
    symbols: &[Symbol],
    places: &[Place],
) -> Result<Option<Term>, AllocError>
    ensures { IfOk result (λ o. option_map term_of o ≡ first (forest_of (signature symbols.now) (map place_of places.now))) }
{
    Ok(forest(heap, symbols, places)?.pop())
}
