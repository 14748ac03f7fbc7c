// Opening a store, and closing it.
ghost use Rattle.std.specs.Prelude.{◌≡◌, true, Decides, MatchResult};
ghost use Rattle.card.specs.Records.{Kept};
ghost use Rattle.store.specs.Memories.{Suits, Wiped};
ghost use Rattle.store.specs.Opens.{NotOpened, Opened};
ghost use Rattle.store.specs.Stores.{room_of};

use crate::memory::Memory;
use crate::store::Store;
use crate::tins::Tins;
use card::check::keeps_rules;
use card::record::{Card, RuleRecord, SymbolRecord};
use card::refusal::Refusal;

// Whether there are 16 to 4,096 rows, and as many places in each work table.
fn suits(memory: &Memory) -> bool
    ensures { Decides result (Suits memory.now) }
{
    let n = memory.nodes.len();
    (16..=4096).contains(&n)
        && memory.marks.len() == n
        && memory.order.len() == n
        && memory.numbers.len() == n
}

impl<'a> Store<'a> {
    // Opens a store with empty tins on a card's counted records. The memory comes back if it does not suit, or if a counted
    // record breaks the card's rules.
    pub fn open(
        card: Card,
        symbols: &'a [SymbolRecord],
        rules: &'a [RuleRecord],
        memory: Memory,
    ) -> Result<Store<'a>, (Refusal, Memory)>
        ensures { MatchResult result
            (Opened card symbols.now rules.now memory)
            (NotOpened card symbols.now rules.now memory) }
    {
        if !suits(&memory) || !keeps_rules(symbols, rules, card) {
            return Err((Refusal::BrokenTable, memory));
        }
        let (symbol_count, rule_count) = (card.symbols, card.rules);
        let tins = Tins::new(memory).map_err(|memory| (Refusal::BrokenTable, memory))?;
        Ok(Store {
            symbols: &symbols[..symbol_count],
            rules: &rules[..rule_count],
            tins,
        })
    }

    // Gives the memory back, with every mark 0.
    pub fn close(self) -> Memory
        ensures { Wiped result (room_of self.entry) }
    {
        let Store {
            symbols: _,
            rules: _,
            tins,
        } = self;
        tins.into_memory()
    }
}
