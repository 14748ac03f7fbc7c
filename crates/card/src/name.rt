// Names as a record holds them: letters, and zeros that fill them to 12 bytes.
ghost use Rattle.std.specs.Prelude.{◌≡◌, Decides};
ghost use Rattle.card.specs.Bytes.{letter, letters_of, same_bytes};
ghost use Rattle.card.specs.Records.{find_from};
ghost use Rattle.card.specs.Scans.{HoldsName};

use crate::record::SymbolRecord;

// Whether a byte is one of a to z.
pub fn is_letter(b: u8) -> bool
    ensures { result ≡ letter b }
{
    b.is_ascii_lowercase()
}

// Whether some name fills these bytes: one letter at least, and behind the letters nothing but zeros.
pub fn is_name(name: &[u8; 12]) -> bool
    ensures { Decides result (HoldsName name.now) }
{
    let letters = letters(name);
    !letters.is_empty()
        && letters.iter().all(|b| is_letter(*b))
        && name.iter().skip(letters.len()).all(|b| *b == 0)
}

// The letters of a name, without the zeros that fill it.
pub fn letters(name: &[u8; 12]) -> &[u8]
    ensures { result.now ≡ letters_of name.now }
{
    let n = name.iter().position(|b| *b == 0).unwrap_or(12);
    &name[..n]
}

// Whether two names are the same: what `==` answers, in the words that look-ups are promised in.
pub fn same_name(a: &[u8; 12], b: &[u8; 12]) -> bool
    ensures { result ≡ same_bytes a.now b.now }
{
    a == b
}

// The number of the first symbol with this name.
pub fn find(symbols: &[SymbolRecord], name: &[u8; 12]) -> Option<usize>
    ensures { result ≡ find_from name.now 0 symbols.now }
{
    symbols
        .iter()
        .position(|symbol| same_name(&symbol.name, name))
}
