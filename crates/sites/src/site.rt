// Sites: the redexes among a tree's subterms, as a strategy is shown them.
ghost use Rattle.std.specs.Prelude.{◌≡◌, not, map, IfOk};
ghost use Rattle.explicit.specs.Meaning.{card_of, listed, tree_of};
ghost use Rattle.sites.specs.Records.{site_of};
ghost use Rattle.rewriting.specs.Matching.{fitting as fitting_rule};
ghost use Rattle.rewriting.specs.Runs.{outermost as outermost_place};
ghost use Rattle.rewriting.specs.Sites.{any, keep, proper, redex};
ghost use Rattle.rewriting.specs.Sites.{redexes as redex_list, sites as site_list, sites_from};
ghost use Rattle.std.specs.Option.{option_map};

use explicit::card::Card;
use explicit::tree::Tree;
use listing::subterm::subterms;
use matching::rule::fitting;
use std::alloc::{AllocError, Global};

// The two flags are facts by themselves: no value depends on them.
#[derive(Clone, Copy)]
pub struct Site {
    // The redex's place in sheet order, from 1.
    pub number: usize,
    pub rule: u16,
    // It is a proper subterm of no redex.
    pub outer: bool,
    // No proper subterm of it is a redex.
    pub inner: bool,
}

// The number of the first rule that fits, if any does. Card and tree stay two parameters: the card is asked about one tree after
// another.
pub fn fitting_number(card: &Card, tree: &Tree) -> Option<u16>
    ensures { result ≡ option_map (λ r. r.number) (fitting_rule (card_of card.now).rules (tree_of tree.now)) }
{
    fitting(&card.rules, tree).map(|rule| rule.number)
}

fn is_redex(card: &Card, tree: &Tree) -> bool
    ensures { result ≡ redex (card_of card.now) (tree_of tree.now) }
{
    fitting(&card.rules, tree).is_some()
}

fn redexes_among<'a>(
    heap: Global,
    card: &Card,
    list: &[&'a Tree],
) -> Result<Vec<&'a Tree>, AllocError>
    ensures { IfOk result (λ v. listed v.items ≡ keep (redex (card_of card.now)) (listed list.now)) }
{
    list.iter()
        .copied()
        .filter(|tree| is_redex(card, tree))
        .collect(heap)
}

// The subterms of the tree that are redexes, in sheet order.
pub fn redexes<'a>(heap: Global, card: &Card, tree: &'a Tree) -> Result<Vec<&'a Tree>, AllocError>
    ensures { IfOk result (λ v. listed v.items ≡ redex_list (card_of card.now) (tree_of tree.now)) }
{
    let order = subterms(heap, tree)?;
    redexes_among(heap, card, &order)
}

// Whether the tree is a proper subterm of the other one. A loop, since a closure that calls its own function again needs a
// contract of its own.
fn is_below(tree: &Tree, whole: &Tree) -> bool
    ensures { result ≡ proper (tree_of tree.now) (tree_of whole.now) }
{
    for child in &whole.children {
        if tree.same(child) || is_below(tree, child) {
            return true;
        }
    }
    false
}

// Whether the tree is a proper subterm of none of the redexes.
fn is_outer(tree: &Tree, redexes: &[&Tree]) -> bool
    ensures { result ≡ not (any (λ u. proper (tree_of tree.now) u) (listed redexes.now)) }
{
    !redexes.iter().any(|redex| is_below(tree, redex))
}

// Whether none of the redexes is a proper subterm of the tree.
fn is_inner(tree: &Tree, redexes: &[&Tree]) -> bool
    ensures { result ≡ not (any (λ u. proper u (tree_of tree.now)) (listed redexes.now)) }
{
    !redexes.iter().any(|redex| is_below(redex, tree))
}

// A `for`, since a site is made of four answers and two of them look at all redexes.
fn sites_among(
    heap: Global,
    card: &Card,
    order: &[&Tree],
    redexes: &[&Tree],
) -> Result<Vec<Site>, AllocError>
    ensures { IfOk result (λ v. map site_of v.items ≡ sites_from (card_of card.now) (listed redexes.now) 1 (listed order.now)) }
{
    let mut sites = Vec::new(heap);
    for (i, x) in order.iter().enumerate() {
        if let Some(rule) = fitting_number(card, x) {
            sites.push(Site {
                number: i + 1,
                rule,
                outer: is_outer(x, redexes),
                inner: is_inner(x, redexes),
            })?;
        }
    }
    Ok(sites)
}

// The sites of the tree in sheet order.
pub fn sites(heap: Global, card: &Card, tree: &Tree) -> Result<Vec<Site>, AllocError>
    ensures { IfOk result (λ v. map site_of v.items ≡ site_list (card_of card.now) (tree_of tree.now)) }
{
    let order = subterms(heap, tree)?;
    let redexes = redexes_among(heap, card, &order)?;
    sites_among(heap, card, &order, &redexes)
}

// The place of the first site marked outer. Every tree with a site has one; of other lists it is the first place.
pub fn outermost(sites: &[Site]) -> usize
    ensures { result ≡ outermost_place (map site_of sites.now) }
{
    sites.iter().position(|site| site.outer).unwrap_or(0)
}
