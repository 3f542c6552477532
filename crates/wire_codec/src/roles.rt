//! The roles of members.
ghost use Rattle.std.specs.Prelude.{◌≡◌};
ghost use Rattle.wire_messages.specs.Nodes as nodes;

use cluster_types::Role;

/// Whether the role has no rack and isn't quiesced.
pub fn is_plain(role: Role) -> bool
    ensures { result ≡ nodes.is_plain role }
{
    role.rack == 0 && !role.quiesced
}
