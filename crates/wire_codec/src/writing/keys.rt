//! Keys of views are written.
ghost use Rattle.std.specs.Prelude.{◌≡◌, ◌++◌, ◌<◌, ◌^◌, OnOk};
ghost use Rattle.wire_messages.specs.Keys.{key_field};

use crate::writing::numbers::put_u64;
use cluster_types::{ClusterKey, NoMemory};

/// A key, or none.
#[tactic(auto, unfolding(wire_messages::specs::Numbers::number_field, wire_messages::specs::Keys::key_field))]
pub(crate) fn put_key(out: &mut Vec<u8>, key: ClusterKey) -> Result<(), NoMemory>
    requires { key.round < 2 ^ 48 }
    ensures { OnOk result (out.new.items ≡ out.old.items ++ key_field key) }
{
    put_u64(out, key.round * 65_536 + u64::from(key.principal))
}
