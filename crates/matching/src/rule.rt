// Rules at a tree: what a left side's variables stand for, which rule fits, and what it makes of the tree.
ghost use Rattle.std.specs.Prelude.{◌≡◌, map, IfOk};
ghost use Rattle.explicit.specs.Meaning.{rule_of, term_of, terms_of, tree_of};
ghost use Rattle.matching.specs.Bindings.{bindings_of};
ghost use Rattle.rewriting.specs.Matching.{bound as bound_tree, bound_in as bound_in_trees};
ghost use Rattle.rewriting.specs.Matching.{contracted as contracted_tree, fitting as fitting_rule, matches as matching};
ghost use Rattle.rewriting.specs.Terms.{applies, apply, children, same as same_tree, sames as same_trees};
ghost use Rattle.std.specs.Option.{option_map};

use explicit::card::Rule;
use explicit::term::Term;
use explicit::tree::Tree;
use std::alloc::{AllocError, Global};

// A matching problem: a left side that is held against a tree. Its methods go down both by loops: a closure that calls its own function again needs
// a contract of its own, so a chain would be no plainer.
#[derive(Clone, Copy)]
pub struct Candidate<'l, 't> {
    pub left: &'l Term,
    pub tree: &'t Tree,
}

impl<'l, 't> Candidate<'l, 't> {
    // What stands in the tree where the left side has the variable for the first time.
    #[inline]
    #[cycle(bound_bound_in)]
    pub fn bound(self, variable: u8) -> Option<&'t Tree>
        ensures { option_map (λ u. tree_of u.now) result ≡ bound_tree (term_of self.entry.left.now) (tree_of self.entry.tree.now) variable }
    {
        match self.left {
            Term::Variable(v) => (*v == variable).then_some(self.tree),
            Term::Symbol(_, lefts) => self.bound_in(lefts, variable),
        }
    }

    // The same of some left sides and the tree's children. A call for each list of them, and none for a variable.
    #[inline(never)]
    #[cycle(bound_bound_in)]
    fn bound_in(self, lefts: &[Term], variable: u8) -> Option<&'t Tree>
        ensures { option_map (λ u. tree_of u.now) result ≡ bound_in_trees (terms_of lefts.now) (children (tree_of self.entry.tree.now)) variable }
    {
        for (left, tree) in lefts.iter().zip(&self.tree.children) {
            let inner = Candidate { left, tree };
            if let Some(found) = inner.bound(variable) {
                return Some(found);
            }
        }
        None
    }

    // A variable that the left side lacks goes to the whole tree.
    fn binding(self, variable: u8) -> &'t Tree
        ensures { tree_of result.now ≡ bindings_of self.entry variable }
    {
        self.bound(variable).unwrap_or(self.tree)
    }

    // Whether a part of the left side, under the bindings of the whole, is the tree. Another symbol is told without a call.
    #[inline]
    #[cycle(agrees_all_agree)]
    fn agrees(self, part: &Term, tree: &Tree) -> bool
        ensures { result ≡ same_tree (apply (bindings_of self.entry) (term_of part.now)) (tree_of tree.now) }
    {
        match part {
            Term::Variable(v) => self.binding(*v).same(tree),
            Term::Symbol(f, parts) => *f == tree.symbol && self.all_agree(parts, tree),
        }
    }

    // The same of some parts and a tree's children.
    #[inline(never)]
    #[cycle(agrees_all_agree)]
    fn all_agree(self, parts: &[Term], tree: &Tree) -> bool
        ensures { result ≡ same_trees (applies (bindings_of self.entry) (terms_of parts.now)) (children (tree_of tree.now)) }
    {
        if parts.len() != tree.children.len() {
            return false;
        }
        for (p, t) in parts.iter().zip(&tree.children) {
            if !self.agrees(p, t) {
                return false;
            }
        }
        true
    }

    // A part of the right side under the bindings of the left side.
    fn instance(self, heap: Global, part: &Term) -> Result<Tree, AllocError>
        ensures { IfOk result (λ u. tree_of u ≡ apply (bindings_of self.entry) (term_of part.now)) }
    {
        match part {
            Term::Variable(v) => self.binding(*v).clone(),
            Term::Symbol(f, parts) => {
                let mut children = Vec::with_capacity(heap, parts.len())?;
                for p in parts {
                    children.push(self.instance(heap, p)?)?;
                }
                Ok(Tree {
                    symbol: *f,
                    children,
                })
            }
        }
    }
}

// Whether the left side matches: the bindings turn it into the tree.
pub fn matches(left: &Term, tree: &Tree) -> bool
    ensures { result ≡ matching (term_of left.now) (tree_of tree.now) }
{
    Candidate { left, tree }.agrees(left, tree)
}

// The first rule whose left side matches the tree.
pub fn fitting<'a>(rules: &'a [Rule], tree: &Tree) -> Option<&'a Rule>
    ensures { option_map (λ q. rule_of q.now) result ≡ fitting_rule (map rule_of rules.now) (tree_of tree.now) }
{
    rules.iter().find(|rule| matches(&rule.left, tree))
}

// The rule's right side under the match of its left side.
pub fn contracted(heap: Global, rule: &Rule, tree: &Tree) -> Result<Tree, AllocError>
    ensures { IfOk result (λ u. tree_of u ≡ contracted_tree (rule_of rule.now) (tree_of tree.now)) }
{
    let left = &rule.left;
    Candidate { left, tree }.instance(heap, &rule.right)
}
