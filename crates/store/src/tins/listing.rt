// The records of a tree's subterms as the lines of its sheet.
ghost use Rattle.std.specs.Prelude.{◌≡◌, ◌+◌, ◌*◌, ◌<◌, ◌≤◌, ◌++◌, length, take, drop, MatchOption, slice_index, slice_index_or};
ghost use Rattle.card.specs.Records.{blank_symbol};
ghost use Rattle.sheet.specs.Texts.{bytes_of, PutAtFront};
ghost use Rattle.store.specs.Printing.{Ready};

use card::record::SymbolRecord;
use dag::table::Table;
use sheet::line::Line;
use sheet::text::Text;
use sheet::trailer::trailer;

// Listed records of a table, with each record's children before it, and the place of each as its number, from 1 on.
#[derive(Clone, Copy)]
pub(crate) struct Listing<'a> {
    pub table: &'a Table,
    pub symbols: &'a [SymbolRecord],
    pub order: &'a [u16],
    pub numbers: &'a [u16],
    ghost ready: { Ready table.now order.now numbers.now },
}

// The bytes of a symbol's name, or zeros for a symbol that has no record. No `map_or`: of a closure that answers an array a proof
// does not know the answer.
fn name_at(symbols: &[SymbolRecord], symbol: u8) -> [u8; 12]
    ensures { result ≡ (slice_index_or symbols.now symbol blank_symbol).name }
{
    let Some(record) = symbols.get(symbol as usize) else {
        return [0; 12];
    };
    record.name
}

// Writes a text into a buffer from a place on, and answers where it ends. It takes the whole buffer beside the place, since its
// promise speaks of what stands before and behind.
fn put_behind(text: &Text, out: &mut [u8], at: usize) -> usize
    requires { at + length (bytes_of text.now) ≤ length out.old }
    ensures end { result ≡ at + length (bytes_of text.now) }
    ensures bytes { out.new ≡ take at out.old ++ (bytes_of text.now ++ drop result out.old) }
{
    at + text.write_to(&mut out[at..]).unwrap()
}

impl Listing<'_> {
    ghost use Rattle.store.specs.Listings.{line_in, lines_in, text_in};

    // The text of the line of the record at a place.
    fn line(&self, place: usize, at: u16) -> Text
        requires inside { place < length self.now.order.now }
        requires there { at ≡ slice_index self.now.order.now place }
        ensures { bytes_of result ≡ line_in self.now place }
    {
        let node = self.table.node(at as usize).renumbered(self.numbers);
        let name = name_at(self.symbols, node.symbol());
        let line = Line {
            number: (place + 1) as u16,
            name,
            children: node.children(),
        };
        line.text()
    }

    // How many bytes the first lines have. A `for`, since a closure could not show what a line asks of its place.
    fn length(&self, count: usize) -> usize
        requires { count ≤ length self.now.order.now }
        ensures sum { result ≡ length (lines_in self.now count) }
        ensures few { result ≤ 48 * count }
    {
        let mut sum = 0;
        for (place, at) in self.order[..count].iter().enumerate() {
            sum += self.line(place, *at).as_bytes().len();
        }
        sum
    }

    // Writes all lines at the front of a buffer, and answers where they end. Each begins where the last one ended.
    fn write_lines(&self, out: &mut [u8]) -> usize
        requires { length (lines_in self.now (length self.now.order.now)) ≤ length out.old }
        ensures { PutAtFront (lines_in self.now (length self.now.order.now)) result out.old out.new }
    {
        let mut end = 0;
        for (place, at) in self.order.iter().enumerate() {
            end = put_behind(&self.line(place, *at), out, end);
        }
        end
    }

    // Writes the lines and the trailer, unless the buffer is too short for them.
    pub(crate) fn write(&self, out: &mut [u8]) -> Option<usize>
        requires { 0 < length self.now.order.now }
        ensures { MatchOption result
            ((length out.old < length (text_in self.now)) × (out.new ≡ out.old))
            (λ n. PutAtFront (text_in self.now) n out.old out.new) }
    {
        let last = self.order.len() - 1;
        let place = self.length(last);
        let line = self.line(last, self.order[last]);
        let foot = trailer(self.order.len() as u16, place);
        if out.len() < place + line.as_bytes().len() + foot.as_bytes().len() {
            return None;
        }
        let end = self.write_lines(out);
        Some(put_behind(&foot, out, end))
    }
}
