// Compaction: keeping the records of the subterms of some roots, and giving up all others.
ghost use Rattle.std.specs.Prelude.{◌≡◌, ℕ, ◌<◌, ◌≤◌, length, None, slice_index_or};
ghost use Rattle.dag.specs.Roots.{ChildrenMarked, Compacted, renumber_root, RootsInUse, RootsWalked, Slid};
ghost use Rattle.dag.specs.Tables.{capacity, trees};
ghost use Rattle.dag.specs.Walks.{Clear};

use crate::marks::Marks;
use crate::node::Node;
use crate::table::Table;
use crate::walk::Walk;

// Marks the records of the roots' subterms.
fn mark_roots(table: &Table, roots: &[Option<u16>], marks: &mut [u8], order: &mut [u16])
    requires roots { RootsInUse table.now.count roots.now }
    requires sizes { (capacity table.now ≤ length marks.old) × (capacity table.now ≤ length order.old) }
    requires clear { Clear marks.old }
    ensures { RootsWalked (trees table.now) roots.now marks.new order.new }
{
    let mut walk = Walk::new(table, marks, order);
    for at in roots.iter().flatten() {
        walk.visit(*at as usize);
    }
}

// Slides the marked records down over the others, and notes their new numbers.
fn slide(table: &mut Table, marks: &[u8], numbers: &mut [u16])
    requires sizes { (capacity table.old ≤ length marks.now) × (capacity table.old ≤ length numbers.old) }
    requires marked { ChildrenMarked table.old.rows.items table.old.count marks.now }
    ensures capacity { capacity table.new ≡ capacity table.old }
    ensures slid { Slid (trees table.old) marks.now table.old.count (trees table.new) numbers.new }
{
    let old = table.count();
    table.truncate(0);
    for (i, mark) in marks[..old].iter().enumerate() {
        if *mark != 0 {
            let node = Node::from_shaped_row(table.row_at(i));
            numbers[i] = table.append(node.renumbered(numbers));
        }
    }
}

// Gives the roots their new numbers.
fn renumber_roots(roots: &mut [Option<u16>], numbers: &[u16])
    requires { RootsInUse (length numbers.now) roots.old }
    ensures { (i : ℕ) → i < length roots.old
        → slice_index_or roots.new i None ≡ renumber_root numbers.now (slice_index_or roots.old i None) }
{
    // a proof does not know what is written through `iter_mut().flatten()`
    for root in roots.iter_mut() {
        if let Some(at) = *root {
            *root = Some(numbers[at as usize]);
        }
    }
}

// Keeps one record for each distinct subterm of the roots' trees, and no other. The order table and `numbers` are work space.
// Marks and work tables are lent one by one, as here and to a walk, since they belong to whoever calls.
pub fn compact(
    table: &mut Table,
    roots: &mut [Option<u16>],
    marks: &mut [u8],
    order: &mut [u16],
    numbers: &mut [u16],
)
    requires roots { RootsInUse table.old.count roots.old }
    requires sizes { (capacity table.old ≤ length marks.old) × (capacity table.old ≤ length order.old) × (capacity table.old ≤ length numbers.old) }
    requires clear { Clear marks.old }
    ensures clear { Clear marks.new }
    ensures capacity { capacity table.new ≡ capacity table.old }
    ensures compacted { Compacted (trees table.old) roots.old (trees table.new) roots.new }
{
    let guard = Marks(marks);
    mark_roots(table, roots, guard.0, order);
    slide(table, guard.0, numbers);
    renumber_roots(roots, numbers);
}
