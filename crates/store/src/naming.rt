// Names that a join is given.
ghost use Rattle.std.specs.Prelude.{◌≡◌, ◌<◌, length, IfSome};
ghost use Rattle.store.specs.Results.{named_from};

use card::name::letters;
use card::record::SymbolRecord;

// The number of the first symbol with this name. Any bytes may be asked for, and the zeros that fill a record are no part of a
// name. So this is no twin of `card::name::find`, which compares the twelve bytes of records.
pub fn find_symbol(symbols: &[SymbolRecord], name: &[u8]) -> Option<usize>
    ensures first { result ≡ named_from name.now 0 symbols.now }
    ensures within { IfSome result (λ i. i < length symbols.now) }
{
    symbols
        .iter()
        .position(|symbol| letters(&symbol.name) == name)
}
