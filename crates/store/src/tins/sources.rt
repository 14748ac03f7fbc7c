// The sources of a join.
ghost use Rattle.std.specs.Prelude.{◌≡◌, ◌<◌, ◌≤◌, true, length, take, MatchOption};
ghost use Rattle.dag.specs.Tables.{node_tree, OverRecords, trees};
ghost use Rattle.dag.specs.Trees.{tree_over};
ghost use Rattle.store.specs.Results.{all_tins};
ghost use Rattle.store.specs.Sources.{all_filled, source_records};

use crate::tins::Tins;
use dag::node::Node;

// Whether all of these are tins.
pub fn all_tins(sources: &[usize]) -> bool
    ensures { result ≡ all_tins sources.now }
{
    sources.iter().all(|source| *source < 16)
}

impl Tins {
    // Whether all of these tins hold a tree.
    pub(crate) fn all_filled(&self, sources: &[usize]) -> bool
        ensures { result ≡ all_filled self.now.roots sources.now }
    {
        sources.iter().all(|source| self.root(*source).is_some())
    }

    // The records of these tins' trees.
    fn source_records(&self, sources: &[usize]) -> [u16; 4]
        requires { length sources.now ≤ 4 }
        ensures { take (length sources.now) result ≡ source_records self.now.roots sources.now }
    {
        let mut records = [0; 4];
        // by place: of the slots that a `zip` with `iter_mut` hands out no invariant could speak
        for (i, source) in sources.iter().enumerate() {
            records[i] = self.root(*source).unwrap_or(0);
        }
        records
    }

    // The node of a symbol over these tins' trees, of which there are four at most.
    pub(crate) fn node_over(&self, symbol: u8, sources: &[usize]) -> Option<Node>
        requires tins { all_tins sources.now ≡ true }
        requires filled { all_filled self.now.roots sources.now ≡ true }
        ensures { MatchOption result (4 < length sources.now)
            (λ n. OverRecords self.now.table n
            × (node_tree self.now.table n ≡ tree_over (trees self.now.table) symbol (source_records self.now.roots sources.now))) }
    {
        if sources.len() > 4 {
            return None;
        }
        let records = self.source_records(sources);
        Node::new(symbol, &records[..sources.len()])
    }
}
