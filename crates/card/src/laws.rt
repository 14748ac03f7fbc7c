// Laws of the card's records. Each function does nothing: its contract is the law.
ghost use Rattle.card.specs.Records.{KeptRecordsMakeAWellFormedCard};
ghost use Rattle.card.specs.Records.{NameIsFoundExactly};
ghost use Rattle.card.specs.Records.{SideHoldsOneTerm};

// Records that keep the card's rules make a well-formed card of the theory.
pub fn kept_records_make_a_well_formed_card()
    ensures { KeptRecordsMakeAWellFormedCard }
{}

// A side holds one term only, and the card has that term for it.
pub fn side_holds_one_term()
    ensures { SideHoldsOneTerm }
{}

// A name is found exactly if a record holds it, and then its number is that record's.
pub fn name_is_found_exactly()
    ensures { NameIsFoundExactly }
{}
