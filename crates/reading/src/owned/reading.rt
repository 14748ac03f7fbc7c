// Reading a recipe text into a recipe of its own.
ghost use Rattle.std.specs.Prelude.{◌≡◌, take, Ok, Err, MatchResult};
ghost use Rattle.reading.specs.RecipePlaces.{recipe_places};
ghost use Rattle.reading.specs.Recipes.{recipe};

use crate::owned::Recipe;
use crate::recipe::read_recipe;
use arrayvec::ArrayVec;
use card::record::{Place, SymbolRecord};
use card::refusal::Refusal;

impl Recipe {
    // The places of its tree, in preorder.
    pub fn places(&self) -> &[Place]
        ensures { result.now ≡ recipe_places self.now }
    {
        self.places.as_slice()
    }
}

// The recipe of a text over at most 64 symbols.
pub fn read_owned_recipe(text: &[u8], symbols: &[SymbolRecord]) -> Result<Recipe, Refusal>
    ensures { MatchResult result
        (λ p. recipe (take 64 symbols.now) text.now ≡ Ok (recipe_places p))
        (λ f. recipe (take 64 symbols.now) text.now ≡ Err f) }
{
    let mut places = [Place::Empty; 4096];
    let count = read_recipe(text, symbols, &mut places)?;
    let mut places = ArrayVec::from(places);
    places.truncate(count);
    Ok(Recipe { places })
}
