// One shared step: every occurrence of the chosen redex is replaced by its contractum.
ghost use Rattle.std.specs.Prelude.{◌≡◌, IfOk};
ghost use Rattle.explicit.specs.Meaning.{card_of, tree_of};
ghost use Rattle.reference.specs.Records.{Stepped};
ghost use Rattle.rewriting.specs.Sites.{contractum as contractum_tree, replace as replace_tree};

use explicit::card::Card;
use explicit::tree::Tree;
use matching::rule::{contracted, fitting};
use sites::site::{outermost, redexes, sites};
use std::alloc::{AllocError, Global};

// The number of the rule, the redex that it was used at, and the tree after it.
#[derive(Drop)]
pub struct Step {
    pub rule: u16,
    pub redex: Tree,
    pub after: Tree,
}

// A redex by the first rule that fits, and any other tree as it is.
pub fn contractum(heap: Global, card: &Card, tree: &Tree) -> Result<Tree, AllocError>
    ensures { IfOk result (λ u. tree_of u ≡ contractum_tree (card_of card.now) (tree_of tree.now)) }
{
    fitting(&card.rules, tree).map_or_else(|| tree.clone(), |rule| contracted(heap, rule, tree))
}

// Every occurrence of `old` replaced by `new`, which is not looked through again.
pub fn replace(heap: Global, old: &Tree, new: &Tree, tree: &Tree) -> Result<Tree, AllocError>
    ensures { IfOk result (λ u. tree_of u ≡ replace_tree (tree_of old.now) (tree_of new.now) (tree_of tree.now)) }
{
    if old.same(tree) {
        return new.clone();
    }
    let mut children = Vec::with_capacity(heap, tree.children.len())?;
    for child in &tree.children {
        children.push(replace(heap, old, new, child)?)?;
    }
    Ok(Tree {
        symbol: tree.symbol,
        children,
    })
}

// The outermost step, or nothing where the tree is a normal form.
pub fn outermost_step(heap: Global, card: &Card, tree: &Tree) -> Result<Option<Step>, AllocError>
    ensures { IfOk result (λ s. Stepped (card_of card.now) (tree_of tree.now) s) }
{
    let redexes = redexes(heap, card, tree)?;
    // a tree at rest is told without its sites, whose list costs as much again
    if redexes.is_empty() {
        return Ok(None);
    }
    let sites = sites(heap, card, tree)?;
    let place = outermost(&sites);
    let (Some(&redex), Some(site)) = (redexes.get(place), sites.get(place)) else {
        return Ok(None);
    };
    let by = contractum(heap, card, redex)?;
    Ok(Some(Step {
        rule: site.rule,
        redex: redex.clone()?,
        after: replace(heap, redex, &by, tree)?,
    }))
}
