// Laws of subterms, sheet order and sheets.
ghost use Rattle.rewriting.specs.Subterms.{SheetOrderListsTheSubterms};
ghost use Rattle.rewriting.specs.Subterms.{SheetOrderListsEachOnce};
ghost use Rattle.rewriting.specs.Subterms.{SheetOrderHasChildrenFirst};
ghost use Rattle.rewriting.specs.Subterms.{SheetOrderIsFirstFinished};
ghost use Rattle.rewriting.specs.Subterms.{EqualSheetsEqualTrees};

// Sheet order lists the subterms of a tree and nothing else.
pub fn sheet_order_lists_the_subterms()
    ensures { SheetOrderListsTheSubterms }
{}

// No subterm stands twice in sheet order.
pub fn sheet_order_lists_each_once()
    ensures { SheetOrderListsEachOnce }
{}

// Each subterm stands behind its children.
pub fn sheet_order_has_children_first()
    ensures { SheetOrderHasChildrenFirst }
{}

// Sheet order is the postorder of all occurrences with each subterm kept where it comes first; the tree is last.
pub fn sheet_order_is_first_finished()
    ensures { SheetOrderIsFirstFinished }
{}

// Two trees are equal exactly when their sheets are.
pub fn equal_sheets_equal_trees()
    ensures { EqualSheetsEqualTrees }
{}
