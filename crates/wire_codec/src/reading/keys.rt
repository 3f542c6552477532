//! Keys of views are read.
ghost use Rattle.std.specs.Prelude.{◌≡◌};
ghost use Rattle.wire_messages.specs.Keys as keys;
ghost use Rattle.wire_codec.specs.Reading.{Reads};

use crate::reading::{Reader, bad};
use cluster_types::ClusterKey;
use wire_messages::FieldFault;

/// The round is in the six high bytes, and the principal in the two low ones.
fn key_of(number: u64) -> ClusterKey
    ensures { result ≡ keys.key_of number }
{
    ClusterKey {
        round: number / 65_536,
        principal: (number % 65_536) as u16,
    }
}

fn is_key(key: ClusterKey) -> bool
    ensures { result ≡ keys.is_key key }
{
    key.round > 0 && key.principal > 0
}

/// Whether there is no key.
pub(crate) fn is_none(key: ClusterKey) -> bool
    ensures { result ≡ keys.is_none key }
{
    key.round == 0 && key.principal == 0
}

impl<'a> Reader<'a> {
    /// The key of some view.
    #[tactic(auto, unfolding(wire_messages::specs::Fields::field, wire_messages::specs::Numbers::number_at, wire_messages::specs::Keys::key_where, wire_messages::specs::Keys::key_at))]
    pub(crate) fn key(&mut self) -> Result<ClusterKey, FieldFault>
        ensures { Reads result (keys.key_at self.old.rest.now) self.new.rest.now }
    {
        let bytes = self.rest;
        let key = key_of(self.u64()?);
        if !is_key(key) {
            return Err(bad(bytes));
        }
        Ok(key)
    }

    /// The key of some view, or none.
    #[tactic(auto, unfolding(wire_messages::specs::Fields::field, wire_messages::specs::Numbers::number_at, wire_messages::specs::Keys::key_where, wire_messages::specs::Keys::key_or_none_at))]
    pub(crate) fn key_or_none(&mut self) -> Result<ClusterKey, FieldFault>
        ensures { Reads result (keys.key_or_none_at self.old.rest.now) self.new.rest.now }
    {
        let bytes = self.rest;
        let key = key_of(self.u64()?);
        if !is_none(key) && !is_key(key) {
            return Err(bad(bytes));
        }
        Ok(key)
    }
}
