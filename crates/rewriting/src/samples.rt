// The definitions at work on small cards.
ghost use Rattle.rewriting.specs.Samples.{ConfluenceIsOverTheTreesOfTheCard};
ghost use Rattle.rewriting.specs.Samples.{ScentedDoubleRuns};
ghost use Rattle.rewriting.specs.Samples.{TeaCardIsWellFormed};

// The tea card keeps the rules for cards.
pub fn tea_card_is_well_formed()
    ensures { TeaCardIsWellFormed }
{}

// The run that the program prints, by computation from the definitions.
pub fn scented_double_runs()
    ensures { ScentedDoubleRuns }
{}

// A card that is confluent on its own trees, and would not be if symbols that it lacks were let in.
pub fn confluence_is_over_the_trees_of_the_card()
    ensures { ConfluenceIsOverTheTreesOfTheCard }
{}
