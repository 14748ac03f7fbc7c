// The distinct subterms of a tree, in sheet order.
ghost use Rattle.std.specs.Prelude.{◌≡◌, IfOk, OnOk};
ghost use Rattle.explicit.specs.Meaning.{listed, tree_of};
ghost use Rattle.rewriting.specs.Subterms.{subterms as subterm_list, walk as walk_tree};

use explicit::tree::Tree;
use std::alloc::{AllocError, Global};

// Adds the tree's subterms that are not yet seen, each when it is first finished.
fn walk<'a>(tree: &'a Tree, seen: &mut Vec<&'a Tree>) -> Result<(), AllocError>
    ensures { OnOk result (listed seen.new.items ≡ walk_tree (tree_of tree.now) (listed seen.old.items)) }
{
    for child in &tree.children {
        walk(child, seen)?;
    }
    if !seen.iter().any(|other| tree.same(other)) {
        seen.push(tree)?;
    }
    Ok(())
}

// The distinct subterms of the tree, children first.
pub fn subterms<'a>(heap: Global, tree: &'a Tree) -> Result<Vec<&'a Tree>, AllocError>
    ensures { IfOk result (λ v. listed v.items ≡ subterm_list (tree_of tree.now)) }
{
    let mut seen = Vec::new(heap);
    walk(tree, &mut seen)?;
    Ok(seen)
}
