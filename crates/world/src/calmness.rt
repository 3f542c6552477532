//! Whether a world is calm.
ghost use Rattle.std.specs.Prelude.{◌≡◌};
ghost use Rattle.std.specs.List.{list_all};
ghost use Rattle.std.specs.Option.{option_copied};
ghost use Rattle.cluster_types.specs.Partitions.{partition_count};
ghost use Rattle.cluster_rules.specs.Calm as calm;
ghost use Rattle.world.specs.Calmness.{rests_in};
ghost use Rattle.world.specs.Stands.{AreDivided};
ghost use Rattle.world.specs.Steps.{standing};

use crate::order::falling;
use crate::world::World;
use cluster_types::{ClusterKey, Groups, Member, NodeId, NodeList};
use node_core::Node;

impl World {
    /// Whether the world is calm: nothing is in flight, and each node that is up is at rest, in a
    /// view of just the up nodes of its group, with their roles, that all of them are in.
    pub fn is_calm(&self) -> bool
        ensures { result ≡ calm.is_calm (standing self.now) }
    {
        self.are_groups_at_rest() && self.net.len() == 0
    }

    fn are_groups_at_rest(&self) -> bool
        ensures { result ≡ list_all (calm.is_group_at_rest partition_count (standing self.now))
            (standing self.now).network.groups }
    {
        match self.groups() {
            // No node is declared.
            None => true,
            Some(groups) => groups
                .as_slice()
                .iter()
                .all(|group| self.is_group_at_rest(group)),
        }
    }

    /// The groups, if any were set.
    fn groups(&self) -> Option<&Groups>
        ensures { AreDivided (option_copied result) (standing self.now).network.groups }
    {
        self.net.groups()
    }

    /// Whether the up nodes of the group are at rest, in one view of just them.
    fn is_group_at_rest(&self, group: &NodeList) -> bool
        ensures { result ≡ calm.is_group_at_rest partition_count (standing self.now) group.now }
    {
        // What is known of the world's parts: who is up is declared.
        let _ = &self.header;
        let up = self.up_among(group);
        let Some(first) = up.get(0) else {
            return true;
        };
        let Some((key, _)) = self.node(*first).view() else {
            return false;
        };
        let mut places = [Member::plain(NodeId::MIN); 16];
        let members = &mut places[..up.len()];
        self.write_members(falling(&up).as_slice(), members);
        self.rest_in(&up, key, members)
    }

    /// Whether each of the nodes runs and is at rest, in the view of that key, of which these are
    /// the members.
    fn rest_in(&self, ids: &NodeList, key: ClusterKey, members: &[Member]) -> bool
        ensures { result
            ≡ list_all (λ n. rests_in key members.now ((standing self.now).facts n)) ids.now }
    {
        ids.as_slice()
            .iter()
            .all(|id| self.rests_in(*id, key, members))
    }

    fn rests_in(&self, id: NodeId, key: ClusterKey, members: &[Member]) -> bool
        ensures { result ≡ rests_in key members.now ((standing self.now).facts id) }
    {
        match self.find(id.number()) {
            None => false,
            Some(place) => rests_in(&self.nodes[place], key, members),
        }
    }
}

/// Whether the node runs and is at rest, in the view of that key, of which these are the members.
fn rests_in(node: &Node, key: ClusterKey, members: &[Member]) -> bool
    ensures { result ≡ rests_in key members.now node.now.now }
{
    match node.view() {
        None => false,
        Some((own, set)) => node.at_rest() && own == key && set.as_slice() == members,
    }
}
