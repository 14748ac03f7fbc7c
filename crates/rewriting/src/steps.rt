// Laws of tree steps, reaching, convertible trees and normal forms.
ghost use Rattle.rewriting.specs.Steps.{StepsStayOnCard};
ghost use Rattle.rewriting.specs.Steps.{ReachedTreesAreOnCard};
ghost use Rattle.rewriting.specs.Steps.{ReachingIsAPreorder};
ghost use Rattle.rewriting.specs.Steps.{ConvertibleIsAnEquivalence};
ghost use Rattle.rewriting.specs.Steps.{ReachedTreesAreConvertible};
ghost use Rattle.rewriting.specs.Steps.{ConvertibleTreesReachACommonTree};
ghost use Rattle.rewriting.specs.Steps.{NormalFormsAreEqualExactlyIfConvertible};

// A tree step from a tree of a well-formed card leads to a tree of the card.
pub fn steps_stay_on_card()
    ensures { StepsStayOnCard }
{}

// Reaching and converting do not leave the trees of the card.
pub fn reached_trees_are_on_card()
    ensures { ReachedTreesAreOnCard }
{}

// Reaching is reflexive and transitive on the trees of a card.
pub fn reaching_is_a_preorder()
    ensures { ReachingIsAPreorder }
{}

// Convertibility is an equivalence on the trees of a card.
pub fn convertible_is_an_equivalence()
    ensures { ConvertibleIsAnEquivalence }
{}

// A tree is convertible to each tree that it reaches.
pub fn reached_trees_are_convertible()
    ensures { ReachedTreesAreConvertible }
{}

// On a confluent card convertible trees reach a common tree (Church and Rosser).
pub fn convertible_trees_reach_a_common_tree()
    ensures { ConvertibleTreesReachACommonTree }
{}

// On a confluent card normal forms reached from two trees are equal exactly when the trees are convertible.
pub fn normal_forms_are_equal_exactly_if_convertible()
    ensures { NormalFormsAreEqualExactlyIfConvertible }
{}
