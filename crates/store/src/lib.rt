// The store: sixteen tins over one node table, on an accepted card.
//
// `store::Store` has the calls: `open` and `close`, `put`, `join`, `copy` and `clear`, which change what a tin holds, and the
// questions `same` and `sheet`. Each promises, for every input, the tree of every tin after it and the reply, by naming the
// result that `specs/Results.antt` defines on written-out trees; a refused call leaves every tin and every record of a tin's
// subterm as it was. Between calls each distinct subterm has one record, and every mark is 0.
//
// `tins::Tins` are the tins with their tables, below the card; `memory::Memory` is what a store is opened on and gives back.
// Nothing here allocates. Which records hold which subterms is left open.

#![tactic(auto)]

pub mod laws;
pub mod memory;
pub mod naming;
pub mod signature;
pub mod store;
pub mod tins;
