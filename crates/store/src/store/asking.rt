// Questions, which change no tin.
ghost use Rattle.std.specs.Prelude.{◌≡◌, length, Ok, Err, MatchResult};
ghost use Rattle.store.specs.Results.{same_result, sheet_result};
ghost use Rattle.store.specs.Stores.{SameCard, SheetWritten, symbols_of, trees_of, Untouched};

use crate::store::Store;
use card::refusal::Refusal;

impl Store<'_> {
    // Whether two tins hold equal trees.
    pub fn same(&self, left: usize, right: usize) -> Result<bool, Refusal>
        ensures { MatchResult result
            (λ answer. same_result (trees_of self.now) left right ≡ Ok answer)
            (λ f. same_result (trees_of self.now) left right ≡ Err f) }
    {
        if left >= 16 || right >= 16 {
            return Err(Refusal::NoSuchTin);
        }
        let left = self.tins.root(left).ok_or(Refusal::EmptyTin)?;
        let right = self.tins.root(right).ok_or(Refusal::EmptyTin)?;
        Ok(left == right)
    }

    // Writes the sheet of a tin's tree at the front of a buffer, and answers its length.
    pub fn sheet(&mut self, tin: usize, out: &mut [u8]) -> Result<usize, Refusal>
        ensures card { SameCard self.old self.new }
        ensures tins { Untouched self.old self.new }
        ensures written { SheetWritten (sheet_result (symbols_of self.old) (trees_of self.old) tin (length out.old)) result out.old out.new }
    {
        if tin >= 16 {
            return Err(Refusal::NoSuchTin);
        }
        let at = self.tins.root(tin).ok_or(Refusal::EmptyTin)?;
        let written = self.tins.write_sheet(at, self.symbols, out);
        written.ok_or(Refusal::BufferTooShort)
    }
}
