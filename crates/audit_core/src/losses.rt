//! Whether a line loses the newest version of a record, and who holds it.
ghost use Rattle.std.specs.Prelude.{◌≡◌, ◌↔◌, ℕ, List, Some, IsTrue, take};
ghost use Rattle.std.specs.List.{list_all};
ghost use Rattle.conflict_order.specs.declared.version.Version.{Version};
ghost use Rattle.cluster_types.specs.declared.cluster_key.ClusterKey.{ClusterKey};
ghost use Rattle.journal_lines.specs.declared.line.Line.TheVariants as line;
ghost use Rattle.journal_readings.specs.Lines.{has_node};
ghost use Rattle.journal_readings.specs.Settings.{nodes};
ghost use Rattle.audit_laws.specs.Fits.{LosesNothing};
ghost use Rattle.audit_state.specs.Places.{placed_version, placed, is_at_most};
ghost use Rattle.audit_state.specs.Records.{newest_of, record_digest};
ghost use Rattle.audit_core.specs.Stored.{Knows};
ghost use Rattle.audit_state.specs.Stores.{held_of};
ghost use Rattle.audit_core.specs.Holders.{content_now, holds_newest, holds_top, is_held_elsewhere};

use crate::judge::Judge;
use cluster_types::{NodeId, PartitionId};

impl<'a> Judge<'a> {
    /// Whether the version at that place is at most the newest that was applied of the record.
    pub fn was_applied(&self, number: usize, place: usize) -> bool
        ensures said { result ≡ is_at_most self.now.by (placed_version self.now.lines.now place)
            (placed self.now.lines.now (newest_of self.now.records number)) }
        ensures fits { (i n : ℕ) → (k : ClusterKey) → (d : List ℕ) → (v : Version)
            → Knows self.now i → record_digest self.now.records number ≡ Some d
            → placed_version self.now.lines.now place ≡ Some v
            → IsTrue result ↔ LosesNothing (take i self.now.lines.now) (line.Merge n k d v) }
    {
        self.versions()
            .at_most(Some(place), self.records.newest(number))
    }

    /// What the node holds of the record now.
    pub fn content(&self, node: NodeId, number: usize) -> Option<usize>
        ensures { result ≡ content_now self.now node number }
    {
        self.stores.content(node, number)
    }

    /// Whether the node holds the newest version of the record.
    pub fn holds_newest(&self, node: NodeId, number: usize) -> bool
        ensures { result ≡ holds_newest self.now node number }
    {
        self.is_newest(number, self.content(node, number))
    }

    /// Whether who holds the version at that place holds the newest of the record.
    pub fn is_newest(&self, number: usize, held: Option<usize>) -> bool
        ensures { result ≡ holds_top self.now.by
            (placed self.now.lines.now (newest_of self.now.records number))
            (placed self.now.lines.now held) }
    {
        let newest = self.records.newest(number);
        let versions = self.versions();
        versions.has(newest) && versions.at_most(newest, held)
    }

    /// Whether the version at the first place is at most that at the second; nothing is below every
    /// version.
    pub fn is_at_most(&self, a: Option<usize>, b: Option<usize>) -> bool
        ensures { result ≡ is_at_most self.now.by (placed self.now.lines.now a)
            (placed self.now.lines.now b) }
    {
        if a == b {
            return true;
        }
        self.versions().at_most(a, b)
    }

    /// Whether another node holds the newest version of each record that the node has of the
    /// partition.
    pub fn is_held_elsewhere(&self, node: NodeId, p: PartitionId) -> bool
        ensures said { result ≡ list_all (is_held_elsewhere self.now node)
            (held_of self.now.stores node p) }
        ensures fits { (i : ℕ) → (k : ClusterKey) → Knows self.now i
            → IsTrue (has_node (nodes (take i self.now.lines.now)) node)
            → IsTrue result ↔ LosesNothing (take i self.now.lines.now) (line.Drop node k p) }
    {
        self.are_held_elsewhere(node, self.stores.held(node, p))
    }

    fn are_held_elsewhere(&self, node: NodeId, numbers: &[usize]) -> bool
        ensures { result ≡ list_all (is_held_elsewhere self.now node) numbers.now }
    {
        numbers
            .iter()
            .all(|number| self.is_record_held_elsewhere(node, *number))
    }

    fn is_record_held_elsewhere(&self, node: NodeId, number: usize) -> bool
        ensures { result ≡ is_held_elsewhere self.now node number }
    {
        !self.holds_newest(node, number) || self.records.holders(number) > 1
    }
}
