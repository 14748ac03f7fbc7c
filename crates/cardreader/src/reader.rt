// Reading a card text.
ghost use Rattle.std.specs.Prelude.{◌≡◌, MatchResult};
ghost use Rattle.cardreader.specs.Calls.{Admitted, CardRead, CardRefused, NotAdmitted};

use crate::fault::CardFault;
use crate::phase::read_lines;
use card::record::{Card, RuleRecord, SymbolRecord};
use card::refusal::Refusal;
use cardtext::clean::clean;
use draft::draft::SymbolDraft;
use draft::wipe::wipe;

// The tests that come before the first line, and a new draft behind them.
fn begin(
    text: &[u8],
    buffer: &[u8],
    symbols: &[SymbolRecord],
    rules: &[RuleRecord],
) -> Result<SymbolDraft, Refusal>
    ensures { MatchResult result
        (λ d. (d.symbols ≡ 0) × Admitted text.now buffer.now symbols.now rules.now)
        (NotAdmitted text.now buffer.now symbols.now rules.now) }
{
    if text.len() > 16384 {
        return Err(Refusal::TextTooLong);
    }
    if buffer.len() < text.len() {
        return Err(Refusal::BufferTooShort);
    }
    SymbolDraft::start(symbols, rules)
}

// Cleans the text into the buffer, and takes its lines into the tables.
pub fn read_card(
    text: &[u8],
    buffer: &mut [u8],
    symbols: &mut [SymbolRecord],
    rules: &mut [RuleRecord],
) -> Result<Card, CardFault>
    ensures { MatchResult result
        (CardRead text.now buffer.old buffer.new symbols.old symbols.new rules.old rules.new)
        (λ f. CardRefused text.now buffer.old buffer.new symbols.old symbols.new rules.old rules.new f.refusal f.line) }
{
    let draft = begin(text, buffer, symbols, rules)?;
    let n = clean(text, buffer).unwrap();
    let read = read_lines(draft, symbols, rules, &buffer[..n]);
    if read.is_err() {
        wipe(buffer, 0);
    }
    read
}
