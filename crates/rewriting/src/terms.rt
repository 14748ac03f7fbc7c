// Laws of trees, terms and substitution.
ghost use Rattle.rewriting.specs.Terms.{EqualityIsDecided};
ghost use Rattle.rewriting.specs.Terms.{SubstitutionSeesOccurringVariables};

// The test that compares symbols and children answers true exactly for equal trees.
pub fn equality_is_decided()
    ensures { EqualityIsDecided }
{}

// Substitutions that agree on the variables of a term make the same tree of it.
pub fn substitution_sees_occurring_variables()
    ensures { SubstitutionSeesOccurringVariables }
{}
