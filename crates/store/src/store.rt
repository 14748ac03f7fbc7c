// The store.
mod asking;
mod filling;
mod joining;
mod opening;

ghost use Rattle.std.specs.Prelude.{◌≡◌, ℕ, ◌<◌, ◌≤◌, true, length, get_or, None, slice_index_or};
ghost use Rattle.card.specs.Records.{arities, blank_symbol};
ghost use Rattle.dag.specs.Roots.{Compact};
ghost use Rattle.dag.specs.Tables.{trees};
ghost use Rattle.store.specs.Holding.{tin_trees};
ghost use Rattle.store.specs.OnCard.{tin_on};

use crate::tins::Tins;
use card::record::{RuleRecord, SymbolRecord};

// Sixteen tins on a card. Between calls each distinct subterm of their trees has one record and there is no other, and every
// tree is one of the card's.
#[derive(Drop)]
pub struct Store<'a> {
    symbols: &'a [SymbolRecord],
    rules: &'a [RuleRecord],
    tins: Tins,
    ghost many: { length symbols.now ≤ 64 },
    ghost few: { (f : ℕ) → f < length symbols.now → (get_or symbols.now f blank_symbol).arity ≤ 4 },
    ghost compact: { Compact (trees tins.table) tins.roots },
    ghost card: { (i : ℕ) → i < length (tin_trees tins) → tin_on (arities symbols.now) (slice_index_or (tin_trees tins) i None) ≡ true },
}
