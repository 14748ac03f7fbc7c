// Walking down shared records: the distinct subterms of a record's tree, in sheet order.
ghost use Rattle.std.specs.Prelude.{◌≡◌, ◌<◌, ◌≤◌, [], length, take};
ghost use Rattle.std.specs.List.{AllByRecursion};
ghost use Rattle.rewriting.specs.Subterms.{subterms, walk};
ghost use Rattle.dag.specs.Tables.{capacity, trees};
ghost use Rattle.dag.specs.Trees.{tree_at};
ghost use Rattle.dag.specs.Walking.{SameTables, Walking, walked_list};
ghost use Rattle.dag.specs.Walks.{Clear, listed};

use crate::marks::Marks;
use crate::table::Table;

// A walk through the records of a table. Those that it came to are marked, and listed at the front of the order table. That the
// two agree is a clause of each method and no ghost field, since between the two writes they do not.
#[derive(Drop)]
pub(crate) struct Walk<'a> {
    table: &'a Table,
    marks: &'a mut [u8],
    order: &'a mut [u16],
    count: usize,
}

impl<'a> Walk<'a> {
    // A walk that came to no record yet.
    pub(crate) fn new(table: &'a Table, marks: &'a mut [u8], order: &'a mut [u16]) -> Walk<'a>
        requires sizes { (capacity table.now ≤ length marks.old) × (capacity table.now ≤ length order.old) }
        requires clear { Clear marks.old }
        ensures table { result.table ≡ table.entry }
        ensures marks { result.marks.ghost_name ≡ marks.entry.ghost_name }
        ensures order { result.order.ghost_name ≡ order.entry.ghost_name }
        ensures walking { Walking result }
        ensures listed { walked_list result ≡ [] }
    {
        Walk {
            table,
            marks,
            order,
            count: 0,
        }
    }

    // Lists the records under record `at` that are not listed yet, each behind its children, and marks them. A child stands
    // below its parent, so the walk ends.
    pub(crate) fn visit(&mut self, at: usize)
        requires inside { at < self.old.table.now.count }
        requires walking { Walking self.old }
        ensures same { SameTables self.old self.new }
        ensures walking { Walking self.new }
        ensures listed { walked_list self.new ≡ walk (tree_at (trees self.old.table.now) at) (walked_list self.old) }
    {
        if self.marks[at] != 0 {
            return;
        }
        let node = self.table.node(at);
        for child in node.children() {
            self.visit(*child as usize);
        }
        self.marks[at] = 1;
        self.order[self.count] = at as u16;
        self.count += 1;
    }
}

// The records of a tree's distinct subterms in sheet order, at the front of the order table, and how many they are.
pub fn subterm_records(table: &Table, at: usize, marks: &mut [u8], order: &mut [u16]) -> usize
    requires inside { at < table.now.count }
    requires sizes { (capacity table.now ≤ length marks.old) × (capacity table.now ≤ length order.old) }
    requires clear { Clear marks.old }
    ensures clear { Clear marks.new }
    ensures within { result ≤ table.now.count }
    ensures records { AllByRecursion (λ k. k < table.now.count) (take result order.new) }
    ensures listed { listed (trees table.now) order.new result ≡ subterms (tree_at (trees table.now) at) }
{
    let guard = Marks(marks);
    let mut walk = Walk::new(table, guard.0, order);
    walk.visit(at);
    walk.count
}
