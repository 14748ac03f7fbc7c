// Terms on the heap: trees that may have variables.
ghost use Rattle.std.specs.Prelude.{◌≡◌, ℕ, true, IfOk};
ghost use Rattle.explicit.specs.Meaning.{Ground, term_of};

use crate::tree::Tree;
use std::alloc::{AllocError, Global};

#[derive(Drop)]
pub enum Term {
    Variable(u8),
    Symbol(u8, Vec<Term>),
}

// The tree that a term without variables is.
pub fn ground(heap: Global, term: &Term) -> Result<Option<Tree>, AllocError>
    ensures { IfOk result (λ o. Ground (term_of term.now) o) }
{
    let Term::Symbol(f, terms) = term else {
        return Ok(None);
    };
    // a `for`, here and wherever children are made: to make one can fail
    let mut children = Vec::with_capacity(heap, terms.len())?;
    for t in terms {
        let Some(child) = ground(heap, t)? else {
            return Ok(None);
        };
        children.push(child)?;
    }
    Ok(Some(Tree {
        symbol: *f,
        children,
    }))
}
