// What comes next in a source: a byte, nothing, or the letters of a name.
ghost use Rattle.std.specs.Prelude.{◌≡◌, ◌<◌, List, [], length, MatchResult};
ghost use Rattle.reading.specs.declared.fault.Fault.TheVariants.{NameTooLong, WrongByte};
ghost use Rattle.reading.specs.Sources.{NameGoesOn, NameTaken, next_is, unexpected};

use crate::fault::Fault;
use crate::source::Source;
use card::name::is_letter;

// Whether the next byte is this one.
pub fn next_is<S: Source>(src: &S, b: u8) -> bool
    ensures { result ≡ next_is b (S.Source.rest src.now) }
{
    src.peek() == Some(b)
}

// What is wrong where nothing that may come next does.
pub fn fault_here<S: Source>(src: &S) -> Fault
    ensures { result ≡ unexpected (S.Source.rest src.now) }
{
    src.peek().map_or(Fault::EarlyEnd, |_| Fault::WrongByte)
}

// Nothing may follow.
pub(crate) fn at_end<S: Source>(src: &S) -> Result<(), Fault>
    ensures { MatchResult result
        (λ _. S.Source.rest src.now ≡ [])
        (λ f. (f ≡ WrongByte) × (0 < length (S.Source.rest src.now))) }
{
    if src.peek().is_some() {
        return Err(Fault::WrongByte);
    }
    Ok(())
}

// The letters that come next, filled with zeros to 12 bytes. A 13th letter is a fault, and is still to come then.
pub fn read_name<S: Source>(src: &mut S) -> Result<[u8; 12], Fault>
    ensures { MatchResult result
        (λ name. NameTaken name (S.Source.rest src.old) (S.Source.rest src.new))
        (λ f. (f ≡ NameTooLong) × NameGoesOn (S.Source.rest src.old) (S.Source.rest src.new)) }
{
    let mut name = [0; 12];
    for slot in &mut name {
        match src.peek() {
            Some(b) if is_letter(b) => *slot = b,
            _ => return Ok(name),
        }
        src.advance();
    }
    match src.peek() {
        Some(b) if is_letter(b) => Err(Fault::NameTooLong),
        _ => Ok(name),
    }
}
