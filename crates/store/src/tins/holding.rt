// What tins hold, and putting something else into one.
ghost use Rattle.std.specs.Prelude.{◌≡◌, ℕ, ◌<◌, ◌≤◌, true, [], length, None, MatchOption, ◌≢◌, slice_index_or, slice_set};
ghost use Rattle.rewriting.specs.Terms.{occurs};
ghost use Rattle.card.specs.Records.{side_term};
ghost use Rattle.dag.specs.Places.{Built, FewChildren, NoRoom, spelled_tree, Spells};
ghost use Rattle.dag.specs.Roots.{Compacted, in_use};
ghost use Rattle.dag.specs.Tables.{capacity, Full, Interned, KeepsRecords, node_tree, OverRecords, trees};

use crate::tins::Tins;
use card::record::Place;
use dag::build::build;
use dag::node::Node;
use dag::signature::Signature;

impl Tins {
    // The record of a tin's tree. What is no tin holds none.
    pub(crate) fn root(&self, tin: usize) -> Option<u16>
        ensures { result ≡ slice_index_or self.now.roots tin None }
    {
        self.roots.get(tin).copied().flatten()
    }

    // Puts a record's tree into a tin, or empties it, and gives up the records that no tin needs any more.
    pub(crate) fn set(&mut self, tin: usize, root: Option<u16>)
        requires inside { tin < 16 }
        requires used { in_use self.old.table.count root ≡ true }
        ensures capacity { capacity self.new.table ≡ capacity self.old.table }
        ensures compacted { Compacted (trees self.old.table) (slice_set self.old.roots tin root) (trees self.new.table) self.new.roots }
    {
        self.roots[tin] = root;
        self.work.compact(&mut self.table, &mut self.roots);
    }

    // The record of the tree that places spell, which is built if it is not there.
    pub(crate) fn build<S: Signature>(&mut self, signature: &S, places: &[Place]) -> Option<u16>
        requires few { FewChildren (S.Signature.arities signature.now) }
        requires spelled { Spells (S.Signature.arities signature.now) places.now (side_term (S.Signature.arities signature.now) places.now) }
        requires ground { (v : ℕ) → occurs v (side_term (S.Signature.arities signature.now) places.now) ≢ true }
        requires short { length places.now ≤ 4096 }
        ensures roots { self.new.roots ≡ self.old.roots }
        ensures capacity { capacity self.new.table ≡ capacity self.old.table }
        ensures records { KeepsRecords self.old.table self.new.table }
        ensures cases { MatchOption result
            (NoRoom self.old.table self.new.table (spelled_tree (S.Signature.arities signature.now) (trees self.old.table) [] places.now))
            (Built self.old.table self.new.table (spelled_tree (S.Signature.arities signature.now) (trees self.old.table) [] places.now)) }
    {
        let mut stack = [0; 4096];
        build(&mut self.table, signature, places, &[], &mut stack)
    }

    // The record of a node's tree, which is added if it is not there.
    pub(crate) fn intern(&mut self, node: Node) -> Option<u16>
        requires { OverRecords self.old.table node }
        ensures roots { self.new.roots ≡ self.old.roots }
        ensures capacity { capacity self.new.table ≡ capacity self.old.table }
        ensures records { KeepsRecords self.old.table self.new.table }
        ensures cases { MatchOption result
            (Full self.old.table self.new.table (node_tree self.old.table node))
            (Interned self.old.table self.new.table (node_tree self.old.table node)) }
    {
        self.table.intern(node)
    }
}
