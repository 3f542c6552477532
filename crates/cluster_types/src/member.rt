//! A member of a view and its role.
ghost use Rattle.std.specs.Prelude.{◌≡◌};
ghost use Rattle.cluster_types.specs.Members.{plain_member};

use crate::node_id::NodeId;

/// Where a node stands, and whether it is about to leave.
#[derive(Clone, Copy, Debug, PartialEq, Eq)]
pub struct Role {
    /// The rack: 1 to 255, and 0 for none.
    pub rack: u8,
    /// A quiesced node stands last in every list, so that its records move away before it stops.
    pub quiesced: bool,
}

impl Role {
    /// No rack, and not quiesced.
    pub const PLAIN: Role = Role {
        rack: 0,
        quiesced: false,
    };
}

/// A node with its role.
#[derive(Clone, Copy, Debug, PartialEq, Eq)]
pub struct Member {
    pub id: NodeId,
    pub role: Role,
}

impl Member {
    /// What fills the places of a list that no member takes.
    pub(crate) const PLACEHOLDER: Member = Member {
        id: NodeId::MIN,
        role: Role::PLAIN,
    };

    /// The node with the plain role.
    pub fn plain(id: NodeId) -> Member
        ensures { result ≡ plain_member id }
    {
        Member {
            id,
            role: Role::PLAIN,
        }
    }
}
