// Nodes over records that got new numbers.
ghost use Rattle.std.specs.Prelude.{◌≡◌, ◌<◌, length};
ghost use Rattle.std.specs.List.{AllByRecursion};
ghost use Rattle.dag.specs.Roots.{renumber};
ghost use Rattle.dag.specs.Rows.{children_of};

use crate::node::Node;
use crate::row::Row;

impl Node {
    // The node of the same symbol over the same children by their new numbers.
    pub fn renumbered(self, numbers: &[u16]) -> Node
        requires { AllByRecursion (λ k. k < length numbers.now) (children_of self.row) }
        ensures symbol { result.row.symbol ≡ self.row.symbol }
        ensures children { children_of result.row ≡ renumber numbers.now (children_of self.row) }
    {
        let mut children = [0; 4];
        // by place: of the slots that a `zip` with `iter_mut` hands out no invariant could speak
        for (place, child) in self.children().iter().enumerate() {
            children[place] = numbers[*child as usize];
        }
        Node {
            row: Row {
                children,
                ..self.row
            },
        }
    }
}
