// Laws of reading, in the words of terms and their written forms.
ghost use Rattle.reading.specs.CardLines.{RuleLineTakenExactly, SymbolLineTakenExactly, TakenRuleLineIsARule};
ghost use Rattle.reading.specs.Recipes.{RecipeAcceptedExactlyIfWritten};
ghost use Rattle.reading.specs.Refusing.{RecipeRefusals, RuleLineRefusals, SymbolLineRefusals};
ghost use Rattle.reading.specs.Written.{AcceptedExactlyIfWritten, WrittenFormsDiffer};

// A text is read to its end exactly if it is the written form of an allowed term, and the places read are that term's.
pub fn accepted_exactly_if_written()
    ensures { AcceptedExactlyIfWritten }
{}

// No two allowed terms share a text.
pub fn written_forms_differ()
    ensures { WrittenFormsDiffer }
{}

// A recipe of at most 4,096 bytes is accepted exactly if it is the written form of a tree of the card inside the limits.
pub fn recipe_accepted_exactly_if_written()
    ensures { RecipeAcceptedExactlyIfWritten }
{}

// A symbol line is taken exactly if there is room and it is the line of a symbol that the card lacks.
pub fn symbol_line_taken_exactly()
    ensures { SymbolLineTakenExactly }
{}

// A rule line is taken only if there is room and it is the line of a rule that keeps the card's rules, with its record.
pub fn taken_rule_line_is_a_rule()
    ensures { TakenRuleLineIsARule }
{}

// A rule line is taken exactly if there is room and it is the line of a rule that keeps the card's rules, with its record.
pub fn rule_line_taken_exactly()
    ensures { RuleLineTakenExactly }
{}

// A recipe is refused with a number from 4 to 8.
pub fn recipe_refusals()
    ensures { RecipeRefusals }
{}

// A symbol line is refused with 5, 11 or 12.
pub fn symbol_line_refusals()
    ensures { SymbolLineRefusals }
{}

// A rule line is refused with 5, 6, 7, 11, 13 or 14.
pub fn rule_line_refusals()
    ensures { RuleLineRefusals }
{}
