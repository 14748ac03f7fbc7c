// The signature of a card.
ghost use Rattle.card.specs.Records.{arities};

use card::record::SymbolRecord;
use dag::signature::Signature;

// A card's symbols, numbered from 0 in the order of their records.
#[derive(Clone, Copy)]
pub struct CardSymbols<'a>(pub &'a [SymbolRecord]);

impl Signature for CardSymbols<'_> {
    ghost arities = { λ s f. arities s.0.now f };

    fn arity(&self, symbol: u8) -> Option<u8> {
        self.0.get(symbol as usize).map(|record| record.arity)
    }
}
