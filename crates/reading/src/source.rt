// Where a reader gets its bytes from. Readers are proved over any source, so what a source skips by itself they never see.
ghost use Rattle.std.specs.Prelude.{◌≡◌, ℕ, List, drop};
ghost use Rattle.reading.specs.Sources.{first};

pub trait Source {
    // the bytes still to come
    ghost rest: { Self → List ℕ };

    // The next byte, which stays to come.
    fn peek(&self) -> Option<u8>
        ensures { result ≡ first (rest self.now) };

    // Takes the next byte, if there is one.
    fn advance(&mut self)
        ensures { rest self.new ≡ drop 1 (rest self.old) };
}

// What is left of a line of text.
#[derive(Drop)]
pub struct Line<'a> {
    rest: &'a [u8],
}

impl<'a> Line<'a> {
    pub fn new(text: &'a [u8]) -> Line<'a>
        ensures { result.rest.now ≡ text.now }
    {
        Line { rest: text }
    }
}

impl Source for Line<'_> {
    ghost rest = { λ s. s.rest.now };

    fn peek(&self) -> Option<u8> {
        self.rest.first().copied()
    }

    fn advance(&mut self) {
        if let Some((_, rest)) = self.rest.split_first() {
            self.rest = rest;
        }
    }
}
