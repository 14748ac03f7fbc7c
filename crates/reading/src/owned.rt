// A recipe that was read.
ghost use Rattle.std.specs.Prelude.{◌≤◌, length};

mod reading;

pub use crate::owned::reading::read_owned_recipe;
use arrayvec::ArrayVec;
use card::record::Place;

// The places of a recipe's tree in preorder, with room for those of every text that is accepted. It is a value of its own,
// so a text that is refused leaves nothing behind.
#[derive(Drop)]
pub struct Recipe {
    places: ArrayVec<Place, 4096>,
    ghost few: { length places.items ≤ 4096 },
}
