// Nodes from rows and from symbols, and rows from nodes.
ghost use Rattle.std.specs.Prelude.{◌≡◌, ◌<◌, length, MatchOption, MatchResult};
ghost use Rattle.dag.specs.Rows.{children_of, Shaped};

use crate::node::Node;
use crate::row::Row;

impl TryFrom<Row> for Node {
    type Error = Row;

    ghost try_from_gives = { λ row r. MatchResult r (λ node. node.row ≡ row) (λ back. (back ≡ row) × (Shaped row → ⊥)) };

    // The node of a row that is in order; any other row comes back.
    fn try_from(row: Row) -> Result<Node, Row> {
        let arity = row.arity as usize;
        if arity > 4 || row.children[arity..].iter().any(|child| *child != 0) {
            return Err(row);
        }
        Ok(Node { row })
    }
}

impl From<Node> for Row {
    ghost from_gives = { λ node row. row ≡ node.row };

    fn from(node: Node) -> Row {
        node.row
    }
}

impl Node {
    // The node of a row that is known to be in order. No `From`, which asks nothing of its caller.
    pub(crate) fn from_shaped_row(row: Row) -> Node
        requires { Shaped row }
        ensures { result.row ≡ row }
    {
        Node { row }
    }

    // The node of a symbol over records.
    pub fn new(symbol: u8, children: &[u16]) -> Option<Node>
        ensures { MatchOption result (4 < length children.now)
            (λ node. (node.row.symbol ≡ symbol) × (children_of node.row ≡ children.now)) }
    {
        if children.len() > 4 {
            return None;
        }
        let arity = children.len() as u8;
        let mut places = [0; 4];
        places[..children.len()].copy_from_slice(children);
        Some(Node {
            row: Row {
                symbol,
                arity,
                children: places,
            },
        })
    }
}
