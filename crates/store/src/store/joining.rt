// Joining tins under a symbol.
ghost use Rattle.std.specs.Prelude.{◌≡◌, Ok, Err, MatchResult};
ghost use Rattle.store.specs.Results.{join_result};
ghost use Rattle.store.specs.Stores.{room_of, SameCard, symbols_of, trees_of, Untouched};

use crate::naming::find_symbol;
use crate::store::Store;
use crate::tins::sources::all_tins;
use card::refusal::Refusal;

impl Store<'_> {
    // Puts a symbol over the trees of some tins into a tin, which may be among them.
    pub fn join(&mut self, target: usize, name: &[u8], sources: &[usize]) -> Result<(), Refusal>
        ensures card { SameCard self.old self.new }
        ensures cases { MatchResult result
            (λ _. join_result (symbols_of self.old) (room_of self.old) (trees_of self.old) target name.now sources.now ≡ Ok (trees_of self.new))
            (λ f. (join_result (symbols_of self.old) (room_of self.old) (trees_of self.old) target name.now sources.now ≡ Err f)
            × Untouched self.old self.new) }
    {
        if target >= 16 || !all_tins(sources) {
            return Err(Refusal::NoSuchTin);
        }
        if !self.tins.all_filled(sources) {
            return Err(Refusal::EmptyTin);
        }
        let symbol = find_symbol(self.symbols, name).ok_or(Refusal::UnknownName)?;
        if self.symbols[symbol].arity as usize != sources.len() {
            return Err(Refusal::WrongChildren);
        }
        let node = self.tins.node_over(symbol as u8, sources);
        let node = node.ok_or(Refusal::WrongChildren)?;
        let at = self.tins.intern(node).ok_or(Refusal::NoRoom)?;
        self.tins.set(target, Some(at));
        Ok(())
    }
}
