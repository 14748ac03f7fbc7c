// Calls that change what the tins hold.
ghost use Rattle.std.specs.Prelude.{◌≡◌, Ok, Err, MatchResult};
ghost use Rattle.store.specs.Results.{clear_result, copy_result, put_result};
ghost use Rattle.store.specs.Stores.{room_of, SameCard, symbols_of, trees_of, Untouched};

use crate::signature::CardSymbols;
use crate::store::Store;
use card::refusal::Refusal;
use reading::owned::read_owned_recipe;

impl Store<'_> {
    // Empties a tin; an empty one stays empty.
    pub fn clear(&mut self, tin: usize) -> Result<(), Refusal>
        ensures card { SameCard self.old self.new }
        ensures cases { MatchResult result
            (λ _. clear_result (trees_of self.old) tin ≡ Ok (trees_of self.new))
            (λ f. (clear_result (trees_of self.old) tin ≡ Err f) × Untouched self.old self.new) }
    {
        if tin >= 16 {
            return Err(Refusal::NoSuchTin);
        }
        self.tins.set(tin, None);
        Ok(())
    }

    // Puts one tin's tree into another.
    pub fn copy(&mut self, target: usize, source: usize) -> Result<(), Refusal>
        ensures card { SameCard self.old self.new }
        ensures cases { MatchResult result
            (λ _. copy_result (trees_of self.old) target source ≡ Ok (trees_of self.new))
            (λ f. (copy_result (trees_of self.old) target source ≡ Err f) × Untouched self.old self.new) }
    {
        if target >= 16 || source >= 16 {
            return Err(Refusal::NoSuchTin);
        }
        let at = self.tins.root(source).ok_or(Refusal::EmptyTin)?;
        self.tins.set(target, Some(at));
        Ok(())
    }

    // Puts the tree of a recipe into a tin.
    pub fn put(&mut self, tin: usize, text: &[u8]) -> Result<(), Refusal>
        ensures card { SameCard self.old self.new }
        ensures cases { MatchResult result
            (λ _. put_result (symbols_of self.old) (room_of self.old) (trees_of self.old) tin text.now ≡ Ok (trees_of self.new))
            (λ f. (put_result (symbols_of self.old) (room_of self.old) (trees_of self.old) tin text.now ≡ Err f)
            × Untouched self.old self.new) }
    {
        if tin >= 16 {
            return Err(Refusal::NoSuchTin);
        }
        let recipe = read_owned_recipe(text, self.symbols)?;
        let symbols = CardSymbols(self.symbols);
        let built = self.tins.build(&symbols, recipe.places());
        let at = built.ok_or(Refusal::NoRoom)?;
        self.tins.set(tin, Some(at));
        Ok(())
    }
}
