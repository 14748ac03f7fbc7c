// The work tables of a store, and what is done with them.
ghost use Rattle.std.specs.Prelude.{◌≡◌, ◌<◌, ◌≤◌, length, vec_len, MatchOption};
ghost use Rattle.std.specs.List.{AllByRecursion};
ghost use Rattle.card.specs.Records.{name_of};
ghost use Rattle.dag.specs.Roots.{Compacted, RootsInUse};
ghost use Rattle.dag.specs.Tables.{capacity, trees};
ghost use Rattle.dag.specs.Trees.{tree_at};
ghost use Rattle.dag.specs.Walks.{Clear};
ghost use Rattle.sheet.specs.SheetText.{sheet_text};
ghost use Rattle.sheet.specs.Texts.{PutAtFront};
ghost use Rattle.store.specs.Printing.{ListedOnce, NumberedTo};

use crate::memory::Memory;
use crate::tins::listing::Listing;
use card::record::SymbolRecord;
use dag::compact::compact;
use dag::marks::wipe;
use dag::row::Row;
use dag::table::Table;
use dag::walk::subterm_records;

// Marks, which are all 0 between calls, and two tables of numbers that are as long. They are three tables, since each is lent by
// itself.
#[derive(Drop)]
pub struct WorkTables {
    marks: Vec<u8>,
    order: Vec<u16>,
    numbers: Vec<u16>,
    ghost order_long: { vec_len order ≡ vec_len marks },
    ghost numbers_long: { vec_len numbers ≡ vec_len marks },
    ghost clear: { Clear marks.items },
}

// Gives each listed record its place in the list, from 1 on.
fn number_records(order: &[u16], numbers: &mut [u16])
    requires inside { AllByRecursion (λ k. k < length numbers.old) order.now }
    requires once { ListedOnce order.now }
    requires few { length order.now ≤ 4096 }
    ensures { NumberedTo (length order.now) order.now numbers.new }
{
    for (place, record) in order.iter().enumerate() {
        numbers[*record as usize] = (place + 1) as u16;
    }
}

impl WorkTables {
    // These tables, with the marks set to 0.
    pub(crate) fn new(mut marks: Vec<u8>, order: Vec<u16>, numbers: Vec<u16>) -> WorkTables
        requires order { vec_len order ≡ vec_len marks }
        requires numbers { vec_len numbers ≡ vec_len marks }
        ensures { vec_len result.marks ≡ vec_len marks }
    {
        wipe(marks.as_mut_slice());
        WorkTables {
            marks,
            order,
            numbers,
        }
    }

    // The tables again, beside the rows that they belong to.
    pub(crate) fn into_memory(self, nodes: Vec<Row>) -> Memory
        ensures nodes { result.nodes ≡ nodes }
        ensures marks { result.marks ≡ self.marks }
        ensures order { result.order ≡ self.order }
        ensures numbers { result.numbers ≡ self.numbers }
    {
        let WorkTables {
            marks,
            order,
            numbers,
        } = self;
        Memory {
            nodes,
            marks,
            order,
            numbers,
        }
    }

    // Keeps one record for each distinct subterm of the roots' trees, and no other.
    pub(crate) fn compact(&mut self, table: &mut Table, roots: &mut [Option<u16>])
        requires long { vec_len self.old.marks ≡ capacity table.old }
        requires roots { RootsInUse table.old.count roots.old }
        ensures long { vec_len self.new.marks ≡ vec_len self.old.marks }
        ensures capacity { capacity table.new ≡ capacity table.old }
        ensures compacted { Compacted (trees table.old) roots.old (trees table.new) roots.new }
    {
        compact(
            table,
            roots,
            self.marks.as_mut_slice(),
            self.order.as_mut_slice(),
            self.numbers.as_mut_slice(),
        );
    }

    // Writes the sheet of a record's tree at the front of a buffer and answers its length, or leaves a buffer that is too
    // short as it is.
    pub(crate) fn write_sheet(
        &mut self,
        table: &Table,
        at: usize,
        symbols: &[SymbolRecord],
        out: &mut [u8],
    ) -> Option<usize>
        requires long { vec_len self.old.marks ≡ capacity table.now }
        requires inside { at < table.now.count }
        ensures long { vec_len self.new.marks ≡ vec_len self.old.marks }
        ensures sheet { MatchOption result
            ((length out.old < length (sheet_text (name_of symbols.now) (tree_at (trees table.now) at))) × (out.new ≡ out.old))
            (λ n. PutAtFront (sheet_text (name_of symbols.now) (tree_at (trees table.now) at)) n out.old out.new) }
    {
        let marks = self.marks.as_mut_slice();
        let count = subterm_records(table, at, marks, self.order.as_mut_slice());
        let order = &self.order.as_slice()[..count];
        number_records(order, self.numbers.as_mut_slice());
        let listing = Listing {
            table,
            symbols,
            order,
            numbers: self.numbers.as_slice(),
        };
        listing.write(out)
    }
}
