//! The fields of a line are read, one after another.
#![tactic(auto, unfolding(crate::specs::Fields::first_field))]

ghost use Rattle.journal_reader.specs.Fields as grammar;
ghost use Rattle.journal_reader.specs.Fields.{first_field};
ghost use Rattle.journal_reader.specs.Unread.{ReadsEnd, Takes};

use crate::reading::digits::{bytes_of, digest_of};
use crate::reading::members::{list_of, members_of};
use crate::reading::names::{action_of, policy_of};
use crate::reading::numbers::{
    count_of, endpoint_of, factor_of, key_of, long_of, node_of, number_of, partition_of,
    script_version_of,
};
use crate::reading::parts::Parts;
use crate::reading::unread::Unread;
use crate::reading::versions::{optional_of, version_of};
use cluster_types::{ClusterKey, Digest, MemberList, Members, NodeId, PartitionId};
use conflict_order::{Action, Policy, Version};
use journal_lines::MessageBytes;
use std::alloc::Global;

impl<'a> Parts<'a> {
    /// No field is left.
    pub fn end(&mut self) -> Result<(), Unread>
        ensures { ReadsEnd result self.old }
    {
        match self.take_first() {
            None => Ok(()),
            Some(_) => Err(Unread::NoLine),
        }
    }

    /// A node's id.
    pub fn node(&mut self) -> Result<NodeId, Unread>
        ensures { Takes result (first_field grammar.parsed_node self.old) self.new }
    {
        let text = self.take_first().ok_or(Unread::NoLine)?;
        node_of(text).ok_or(Unread::NoLine)
    }

    /// A view's key.
    pub fn key(&mut self) -> Result<ClusterKey, Unread>
        ensures { Takes result (first_field grammar.parsed_key self.old) self.new }
    {
        let text = self.take_first().ok_or(Unread::NoLine)?;
        key_of(text).ok_or(Unread::NoLine)
    }

    /// A partition's number.
    pub fn partition(&mut self) -> Result<PartitionId, Unread>
        ensures { Takes result (first_field grammar.parsed_partition self.old) self.new }
    {
        let text = self.take_first().ok_or(Unread::NoLine)?;
        partition_of(text).ok_or(Unread::NoLine)
    }

    /// The number of a transaction, a proxy, a call or a scan.
    pub fn number(&mut self) -> Result<u32, Unread>
        ensures { Takes result (first_field grammar.number_of self.old) self.new }
    {
        let text = self.take_first().ok_or(Unread::NoLine)?;
        number_of(text).ok_or(Unread::NoLine)
    }

    /// How many records a page has.
    pub fn count(&mut self) -> Result<u32, Unread>
        ensures { Takes result (first_field grammar.parsed_count self.old) self.new }
    {
        let text = self.take_first().ok_or(Unread::NoLine)?;
        count_of(text).ok_or(Unread::NoLine)
    }

    /// The number of a message, a time or a count.
    pub fn long(&mut self) -> Result<u64, Unread>
        ensures { Takes result (first_field grammar.long_of self.old) self.new }
    {
        let text = self.take_first().ok_or(Unread::NoLine)?;
        long_of(text).ok_or(Unread::NoLine)
    }

    /// A node's id, or 0 for the client.
    pub fn endpoint(&mut self) -> Result<u16, Unread>
        ensures { Takes result (first_field grammar.endpoint_of self.old) self.new }
    {
        let text = self.take_first().ok_or(Unread::NoLine)?;
        endpoint_of(text).ok_or(Unread::NoLine)
    }

    /// A digest.
    pub fn digest(&mut self) -> Result<Digest, Unread>
        ensures { Takes result (first_field grammar.parsed_digest self.old) self.new }
    {
        let text = self.take_first().ok_or(Unread::NoLine)?;
        digest_of(text).ok_or(Unread::NoLine)
    }

    /// What a request does.
    pub fn action(&mut self) -> Result<Action, Unread>
        ensures { Takes result (first_field grammar.parsed_action self.old) self.new }
    {
        let text = self.take_first().ok_or(Unread::NoLine)?;
        action_of(text).ok_or(Unread::NoLine)
    }

    /// A conflict policy.
    pub fn policy(&mut self) -> Result<Policy, Unread>
        ensures { Takes result (first_field grammar.parsed_policy self.old) self.new }
    {
        let text = self.take_first().ok_or(Unread::NoLine)?;
        policy_of(text).ok_or(Unread::NoLine)
    }

    /// The version of the script's language.
    pub fn script_version(&mut self) -> Result<u8, Unread>
        ensures { Takes result (first_field grammar.script_version_of self.old) self.new }
    {
        let text = self.take_first().ok_or(Unread::NoLine)?;
        script_version_of(text).ok_or(Unread::NoLine)
    }

    /// How many replicas a partition has.
    pub fn factor(&mut self) -> Result<u8, Unread>
        ensures { Takes result (first_field grammar.parsed_factor self.old) self.new }
    {
        let text = self.take_first().ok_or(Unread::NoLine)?;
        factor_of(text).ok_or(Unread::NoLine)
    }

    /// A version.
    pub fn version(&mut self, alloc: Global) -> Result<Version, Unread>
        ensures { Takes result (first_field grammar.parsed_version self.old) self.new }
    {
        let text = self.take_first().ok_or(Unread::NoLine)?;
        version_of(alloc, text)?.ok_or(Unread::NoLine)
    }

    /// A version, or the word for none.
    pub fn optional_version(&mut self, alloc: Global) -> Result<Option<Version>, Unread>
        ensures { Takes result (first_field grammar.optional_of self.old) self.new }
    {
        let text = self.take_first().ok_or(Unread::NoLine)?;
        optional_of(alloc, text)?.ok_or(Unread::NoLine)
    }

    /// The members of a view.
    pub fn members(&mut self, alloc: Global) -> Result<Members, Unread>
        ensures { Takes result (first_field grammar.parsed_members self.old) self.new }
    {
        let text = self.take_first().ok_or(Unread::NoLine)?;
        members_of(alloc, text)?.ok_or(Unread::NoLine)
    }

    /// The members of a partition's list.
    pub fn list(&mut self, alloc: Global) -> Result<MemberList, Unread>
        ensures { Takes result (first_field grammar.list_of self.old) self.new }
    {
        let text = self.take_first().ok_or(Unread::NoLine)?;
        list_of(alloc, text)?.ok_or(Unread::NoLine)
    }

    /// The bytes of a message.
    pub fn bytes(&mut self, alloc: Global) -> Result<MessageBytes, Unread>
        ensures { Takes result (first_field grammar.parsed_bytes self.old) self.new }
    {
        let text = self.take_first().ok_or(Unread::NoLine)?;
        bytes_of(alloc, text)?.ok_or(Unread::NoLine)
    }
}
