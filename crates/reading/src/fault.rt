// Why a text is no term or no line: which rule the byte broke at which reading stopped.
ghost use Rattle.std.specs.Prelude.{◌≡◌};
ghost use Rattle.reading.specs.Faults.{refusal_of};

use card::refusal::Refusal;

#[derive(Clone, Copy, PartialEq, Eq)]
pub enum Fault {
    // a 13th letter
    NameTooLong,
    // a name that is not on the card
    UnknownName,
    // a bracket behind a constant
    ConstantOpened,
    // no bracket behind the name of a symbol that takes children
    BracketMissing,
    // a comma behind the last child
    TooManyChildren,
    // a bracket that closes too early
    TooFewChildren,
    // a bracket that opens inside as many open ones as there may be
    TooDeep,
    // one place too many
    TooManyPlaces,
    // a variable that may not stand here
    UnboundVariable,
    // a byte that cannot come next
    WrongByte,
    // the end where something has to follow
    EarlyEnd,
    // one symbol or rule too many
    TooManyLines,
    // a digit above 4
    DigitTooLarge,
    // a symbol's name that is already on the card
    NameTaken,
    // a left side that is a lone variable
    LoneVariable,
}

impl From<Fault> for Refusal {
    ghost from_gives = { λ f r. r ≡ refusal_of f };

    fn from(f: Fault) -> Refusal {
        match f {
            Fault::NameTooLong | Fault::WrongByte | Fault::EarlyEnd => Refusal::Malformed,
            Fault::UnknownName => Refusal::UnknownName,
            Fault::ConstantOpened
            | Fault::BracketMissing
            | Fault::TooManyChildren
            | Fault::TooFewChildren => Refusal::WrongChildren,
            Fault::TooDeep => Refusal::TooDeep,
            Fault::TooManyPlaces | Fault::TooManyLines | Fault::DigitTooLarge => Refusal::OverLimit,
            Fault::UnboundVariable => Refusal::UnboundVariable,
            Fault::NameTaken => Refusal::NameTaken,
            Fault::LoneVariable => Refusal::LoneVariable,
        }
    }
}
