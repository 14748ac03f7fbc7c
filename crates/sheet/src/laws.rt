// Laws of sheets. A law does nothing when it is called: its contract is the statement.
ghost use Rattle.sheet.specs.SheetText.{SameSheetSameTree};

// Two trees of a card have the same sheet, byte by byte, exactly if they are equal.
pub fn same_sheet_same_tree()
    ensures { SameSheetSameTree }
{}
