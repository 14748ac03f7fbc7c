// Why a card text is refused.
ghost use Rattle.std.specs.Prelude.{◌≡◌, Some};
ghost use Rattle.cardreader.specs.Refused.{refused_text};

use card::refusal::Refusal;
use std::fmt;

// The refusal, and the line that it is about, counted from 1; 0 stands for the call itself.
#[derive(Clone, Copy, PartialEq, Eq)]
pub struct CardFault {
    pub refusal: Refusal,
    pub line: usize,
}

// What the call itself is refused for.
impl From<Refusal> for CardFault {
    ghost from_gives = { λ r f. (f.refusal ≡ r) × (f.line ≡ 0) };

    fn from(refusal: Refusal) -> CardFault {
        CardFault { refusal, line: 0 }
    }
}

impl fmt::Display for CardFault {
    ghost output = { λ f. Some (refused_text f) };

    fn fmt<W: fmt::Write>(&self, f: &mut fmt::Formatter<W>) -> fmt::Result {
        let number = self.refusal.number();
        let line = self.line;
        write!(f, "refused {number} line {line}")
    }
}
