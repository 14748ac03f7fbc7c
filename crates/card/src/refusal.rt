// Every way in which a call of the product can be turned away.
ghost use Rattle.std.specs.Prelude.{◌≡◌};
ghost use Rattle.card.specs.Refusals.{number_of};

#[derive(Clone, Copy, PartialEq, Eq)]
pub enum Refusal {
    // a tin number above 15
    NoSuchTin = 1,
    // a tin to be read or run is empty
    EmptyTin = 2,
    // a budget above 100,000
    BudgetTooLarge = 3,
    // a recipe or card text that is too long
    TextTooLong = 4,
    // malformed text
    Malformed = 5,
    // a name that is not on the card
    UnknownName = 6,
    // a wrong number of children
    WrongChildren = 7,
    // a bracket opens inside as many open ones as there may be
    TooDeep = 8,
    // the tree of a put or a join does not fit the store
    NoRoom = 9,
    // a buffer that is shorter than what goes into it
    BufferTooShort = 10,
    // one symbol, rule or place too many, or a digit above 4
    OverLimit = 11,
    // a symbol's name that is already on the card
    NameTaken = 12,
    // a left side that is a lone variable
    LoneVariable = 13,
    // a variable of the right side that the left side lacks
    UnboundVariable = 14,
    // a table of the wrong length, or a counted record that breaks the card's rules
    BrokenTable = 15,
}

impl Refusal {
    // The number under which the refusal is reported.
    pub fn number(self) -> u8
        ensures { result ≡ number_of self }
    {
        self as u8
    }
}
