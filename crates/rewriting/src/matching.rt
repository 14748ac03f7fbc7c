// Laws of matching and of the rule that fits.
ghost use Rattle.rewriting.specs.Matching.{MatchIsFoundExactly};
ghost use Rattle.rewriting.specs.Matching.{MatchIsUnique};
ghost use Rattle.rewriting.specs.Matching.{FittingRuleIsLowest};

// The computed match is a match, and where it finds none there is none.
pub fn match_is_found_exactly()
    ensures { MatchIsFoundExactly }
{}

// Two matches agree on the variables of the left side, and so on every right side over them.
pub fn match_is_unique()
    ensures { MatchIsUnique }
{}

// The rule found for a tree is the lowest-numbered that fits it, and none is found only if none fits.
pub fn fitting_rule_is_lowest()
    ensures { FittingRuleIsLowest }
{}
