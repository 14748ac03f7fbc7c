// Writing the sheet of a record's tree.
ghost use Rattle.std.specs.Prelude.{◌≡◌, ◌<◌, length, MatchOption};
ghost use Rattle.card.specs.Records.{name_of};
ghost use Rattle.dag.specs.Tables.{trees};
ghost use Rattle.dag.specs.Trees.{tree_at};
ghost use Rattle.sheet.specs.SheetText.{sheet_text};
ghost use Rattle.sheet.specs.Texts.{PutAtFront};

use crate::tins::Tins;
use card::record::SymbolRecord;

impl Tins {
    // Writes the sheet of a record's tree at the front of a buffer and answers its length, or leaves a buffer that is too
    // short as it is.
    pub(crate) fn write_sheet(
        &mut self,
        at: u16,
        symbols: &[SymbolRecord],
        out: &mut [u8],
    ) -> Option<usize>
        requires { at < self.old.table.count }
        ensures table { self.new.table ≡ self.old.table }
        ensures roots { self.new.roots ≡ self.old.roots }
        ensures sheet { MatchOption result
            ((length out.old < length (sheet_text (name_of symbols.now) (tree_at (trees self.old.table) at))) × (out.new ≡ out.old))
            (λ n. PutAtFront (sheet_text (name_of symbols.now) (tree_at (trees self.old.table) at)) n out.old out.new) }
    {
        self.work
            .write_sheet(&self.table, at as usize, symbols, out)
    }
}
