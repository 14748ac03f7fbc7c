// What a reader of terms goes by.
ghost use Rattle.std.specs.Prelude.{◌≤◌, length};

use card::record::SymbolRecord;

#[derive(Clone, Copy)]
pub struct Grammar<'a> {
    // the card's symbols
    pub symbols: &'a [SymbolRecord],
    // for each variable whether it may stand here; none may at all in a recipe
    pub variables: Option<[bool; 8]>,
    // how many places there may be
    pub places: usize,
    // how many brackets may be open at once
    pub brackets: usize,
    ghost few: { length symbols.now ≤ 64 },
    ghost shallow: { brackets ≤ 64 },
}
