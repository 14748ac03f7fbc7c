// Trees on the heap: equality and copies.
ghost use Rattle.std.specs.Prelude.{◌≡◌};
ghost use Rattle.rewriting.specs.Terms.{children, same as same_tree, sames as same_trees};
ghost use Rattle.explicit.specs.Meaning.{tree_of};

use std::alloc::AllocError;

#[derive(PartialEq, Eq, Drop)]
pub struct Tree {
    pub symbol: u8,
    pub children: Vec<Tree>,
}

impl Tree {
    // Whether the trees have the same symbol over the same children. It answers what `==` does and is what the rewriter compares
    // trees by. Most differ at their roots, and those are told apart without a call.
    #[inline]
    #[cycle(same_same_children)]
    pub fn same(&self, other: &Tree) -> bool
        ensures { result ≡ same_tree (tree_of self.now) (tree_of other.now) }
    {
        self.symbol == other.symbol && self.same_children(other)
    }

    #[inline(never)]
    #[cycle(same_same_children)]
    fn same_children(&self, other: &Tree) -> bool
        ensures { result ≡ same_trees (children (tree_of self.now)) (children (tree_of other.now)) }
    {
        if self.children.len() != other.children.len() {
            return false;
        }
        for (child, counterpart) in self.children.iter().zip(&other.children) {
            if !child.same(counterpart) {
                return false;
            }
        }
        true
    }
}

// Written out, since a derived `clone` says nothing of a type that holds itself.
impl Clone for Tree {
    ghost is_clone = { λ t u. tree_of u ≡ tree_of t };

    fn clone(&self) -> Result<Tree, AllocError> {
        let mut children = Vec::with_capacity(*self.children.allocator(), self.children.len())?;
        for child in &self.children {
            children.push(child.clone()?)?;
        }
        Ok(Tree {
            symbol: self.symbol,
            children,
        })
    }
}
