// Laws of every store. A law does nothing when it is called: its contract is the statement.
ghost use Rattle.store.specs.OnCard.{TreesOnASignatureAreTold};
ghost use Rattle.store.specs.StoreLaws.{OneRecordForEachSubterm, SameSheetsSameTrees};

// Each distinct subterm of the tins' trees has one record, and there is no other record in use.
pub fn one_record_for_each_subterm()
    ensures { OneRecordForEachSubterm }
{}

// Two tins have the same sheet, byte by byte, exactly if they hold equal trees.
pub fn same_sheets_same_trees()
    ensures { SameSheetsSameTrees }
{}

// The test for trees of a signature tells them.
pub fn trees_on_a_signature_are_told()
    ensures { TreesOnASignatureAreTold }
{}
