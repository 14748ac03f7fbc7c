// The sheet of a tree: a row for each distinct subterm, with its children's numbers.
ghost use Rattle.std.specs.Prelude.{◌≡◌, suc, map, IfOk};
ghost use Rattle.explicit.specs.Meaning.{listed, tree_of};
ghost use Rattle.listing.specs.Rows.{row_of};
ghost use Rattle.rewriting.specs.Subterms.{place_of, row, sheet as sheet_rows};

use crate::subterm::subterms;
use explicit::tree::Tree;
use std::alloc::{AllocError, Global};

#[derive(Drop)]
pub struct Row {
    pub symbol: u8,
    pub children: Vec<usize>,
}

// A tree's number is one more than its place in sheet order.
fn number_of(tree: &Tree, order: &[&Tree]) -> usize
    ensures { result ≡ suc (place_of (tree_of tree.now) (listed order.now)) }
{
    let place = order.iter().position(|other| tree.same(other));
    place.unwrap_or(order.len()) + 1
}

// A subterm's row, in a list in sheet order.
fn row_for(heap: Global, order: &[&Tree], tree: &Tree) -> Result<Row, AllocError>
    ensures { IfOk result (λ q. row_of q ≡ row (listed order.now) (tree_of tree.now)) }
{
    let numbers = tree.children.iter().map(|child| number_of(child, order));
    Ok(Row {
        symbol: tree.symbol,
        children: numbers.collect(heap)?,
    })
}

// The rows of the tree's subterms in sheet order.
pub fn sheet(heap: Global, tree: &Tree) -> Result<Vec<Row>, AllocError>
    ensures { IfOk result (λ v. map row_of v.items ≡ sheet_rows (tree_of tree.now)) }
{
    let order = subterms(heap, tree)?;
    // a `for`: to make a row can fail, and a proof does not know the items of a chain that can
    let mut rows = Vec::new(heap);
    for subterm in &order {
        rows.push(row_for(heap, &order, subterm)?)?;
    }
    Ok(rows)
}
