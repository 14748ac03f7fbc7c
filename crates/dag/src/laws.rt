// Laws of node tables. Each function does nothing: its contract is the law.
ghost use Rattle.dag.specs.Compactness.{CompactTablesCountExactly};
ghost use Rattle.dag.specs.Compactness.{CompactTablesHoldRootSubterms};
ghost use Rattle.dag.specs.Compactness.{CompactedTablesAreCompact};
ghost use Rattle.dag.specs.Places.{PlacesSpellOneTerm};
ghost use Rattle.dag.specs.Tables.{ChildrenStandBelow};
ghost use Rattle.dag.specs.Tables.{RecordsHaveDistinctTrees};

// No two records in use have the same tree, so a tree has at most one record.
pub fn records_have_distinct_trees()
    ensures { RecordsHaveDistinctTrees }
{}

// The children of a record's tree are the trees of records below it.
pub fn children_stand_below()
    ensures { ChildrenStandBelow }
{}

// A list of places spells one term only, and that is the one whose tree is built.
pub fn places_spell_one_term()
    ensures { PlacesSpellOneTerm }
{}

// A table that was compacted is compact.
pub fn compacted_tables_are_compact()
    ensures { CompactedTablesAreCompact }
{}

// The trees of a compact table are the subterms of its roots' trees.
pub fn compact_tables_hold_root_subterms()
    ensures { CompactTablesHoldRootSubterms }
{}

// Whether one tree more fits into a compact table is a matter of how many distinct subterms it and the roots' trees have.
pub fn compact_tables_count_exactly()
    ensures { CompactTablesCountExactly }
{}
