// Signatures: which symbols there are, and how many children each takes.
ghost use Rattle.std.specs.Prelude.{◌≡◌, ℕ, Option};

// Whoever builds trees says which symbols there are. The table asks for nothing else of a card, so that symbols beyond a
// card's own cost no new proof.
pub trait Signature {
    // the arity of each symbol, and nothing for one that is not there
    ghost arities: { Self → ℕ → Option ℕ };

    fn arity(&self, symbol: u8) -> Option<u8>
        ensures { result ≡ arities self.now symbol };
}
