// Reading a symbol line: name, "/", one digit.
ghost use Rattle.std.specs.Prelude.{◌≡◌, List};
ghost use Rattle.reading.specs.Lines.{line_of, symbol_digit, symbol_line};

use crate::fault::Fault;
use crate::name::{at_end, fault_here, next_is, read_name};
use crate::source::Source;
use card::name::find;
use card::record::SymbolRecord;

// The digit behind "/", and nothing more.
fn read_arity<S: Source>(src: &mut S, name: [u8; 12]) -> Result<SymbolRecord, Fault>
    ensures { line_of result (S.Source.rest src.new) ≡ symbol_digit name (S.Source.rest src.old) }
{
    let arity = match src.peek().ok_or(Fault::EarlyEnd)? {
        b @ b'0'..=b'4' => b - b'0',
        b'5'..=b'9' => return Err(Fault::DigitTooLarge),
        _ => return Err(Fault::WrongByte),
    };
    src.advance();
    at_end(src)?;
    Ok(SymbolRecord { name, arity })
}

// The symbol of a line, behind the symbols that the card has.
pub fn read_symbol_line<S: Source>(
    src: &mut S,
    symbols: &[SymbolRecord],
) -> Result<SymbolRecord, Fault>
    ensures { line_of result (S.Source.rest src.new) ≡ symbol_line symbols.now (S.Source.rest src.old) }
{
    if symbols.len() >= 64 {
        return Err(Fault::TooManyLines);
    }
    let name = read_name(src)?;
    if name[0] == 0 || !next_is(src, b'/') {
        return Err(fault_here(src));
    }
    if find(symbols, &name).is_some() {
        return Err(Fault::NameTaken);
    }
    src.advance();
    read_arity(src, name)
}
