// Building a term's tree from its places, for recipes and for right sides of rules alike.
ghost use Rattle.std.specs.Prelude.{◌≡◌, ◌<◌, ◌≤◌, length, take, MatchOption};
ghost use Rattle.std.specs.List.{AllByRecursion};
ghost use Rattle.rewriting.specs.Terms.{node};
ghost use Rattle.card.specs.Records.{side_term};
ghost use Rattle.dag.specs.Places.{binding, Bound, Built, FewChildren, NoRoom, place_tree, Pushed, Readable, spelled_tree, Spells, taken};
ghost use Rattle.dag.specs.Stacks.{records_on, stack_trees};
ghost use Rattle.dag.specs.Tables.{capacity, Full, KeepsRecords, trees};
ghost use Rattle.dag.specs.Trees.{from_list};

use crate::node::Node;
use crate::signature::Signature;
use crate::stack::Stack;
use crate::table::Table;
use card::record::Place;

// Puts the record of a symbol over the topmost records in their place.
fn push_symbol(table: &mut Table, symbol: u8, arity: usize, stack: &mut Stack) -> Option<()>
    requires few { arity ≤ 4 }
    requires room { 0 < stack.old.top }
    requires there { arity ≤ length (records_on stack.old) }
    requires records { AllByRecursion (λ k. k < table.old.count) (records_on stack.old) }
    ensures capacity { capacity table.new ≡ capacity table.old }
    ensures records { KeepsRecords table.old table.new }
    ensures cases { MatchOption result
        (Full table.old table.new (node symbol (from_list (take arity (stack_trees (trees table.old) stack.old)))))
        (λ _. Pushed table.old table.new stack.old stack.new arity
        (node symbol (from_list (take arity (stack_trees (trees table.old) stack.old))))) }
{
    let node = Node::new(symbol, stack.topmost(arity))?;
    let record = table.intern(node)?;
    stack.replace(arity, record);
    Some(())
}

// Puts on the stack what a place stands for: the record that a variable is bound to, or that of a symbol over the topmost
// records.
fn push_place<S: Signature>(
    table: &mut Table,
    signature: &S,
    place: Place,
    bindings: &[u16],
    stack: &mut Stack,
) -> Option<()>
    requires readable { Readable (S.Signature.arities signature.now) table.old.count bindings.now place (length (records_on stack.old)) }
    requires room { 0 < stack.old.top }
    requires records { AllByRecursion (λ k. k < table.old.count) (records_on stack.old) }
    ensures capacity { capacity table.new ≡ capacity table.old }
    ensures records { KeepsRecords table.old table.new }
    ensures cases { MatchOption result
        (Full table.old table.new
        (place_tree (S.Signature.arities signature.now) (binding (trees table.old) bindings.now) place
        (stack_trees (trees table.old) stack.old)))
        (λ _. Pushed table.old table.new stack.old stack.new (taken (S.Signature.arities signature.now) place)
        (place_tree (S.Signature.arities signature.now) (binding (trees table.old) bindings.now) place
        (stack_trees (trees table.old) stack.old))) }
{
    match place {
        Place::Empty => unreachable(),
        Place::Symbol(symbol) => {
            let arity = signature.arity(symbol)?;
            push_symbol(table, symbol, arity as usize, stack)
        }
        Place::Variable(variable) => {
            stack.replace(0, bindings[variable as usize]);
            Some(())
        }
    }
}

// The record of a term's tree, given the term's places in preorder and the records that its variables are bound to. The
// stack is work space, with at least as many numbers as there are places. With no room the table is put back.
pub fn build<S: Signature>(
    table: &mut Table,
    signature: &S,
    places: &[Place],
    bindings: &[u16],
    stack: &mut [u16],
) -> Option<u16>
    requires few { FewChildren (S.Signature.arities signature.now) }
    requires spelled { Spells (S.Signature.arities signature.now) places.now (side_term (S.Signature.arities signature.now) places.now) }
    requires bound { Bound table.old.count bindings.now (side_term (S.Signature.arities signature.now) places.now) }
    requires room { length places.now ≤ length stack.old }
    ensures capacity { capacity table.new ≡ capacity table.old }
    ensures records { KeepsRecords table.old table.new }
    ensures cases { MatchOption result
        (NoRoom table.old table.new (spelled_tree (S.Signature.arities signature.now) (trees table.old) bindings.now places.now))
        (Built table.old table.new (spelled_tree (S.Signature.arities signature.now) (trees table.old) bindings.now places.now)) }
{
    let old = table.count();
    let mut stack = Stack::new(stack);
    // no `?`: with no room the table has to be put back first
    for place in places.iter().rev() {
        let Some(()) = push_place(table, signature, *place, bindings, &mut stack) else {
            table.truncate(old);
            return None;
        };
    }
    Some(stack.first())
}
