//! The words of a line that stand for a value of another crate.
ghost use Rattle.std.specs.Prelude.{Some};
ghost use Rattle.journal_text.specs.Values as texts;

use crate::digits::Digits;
use cluster_types::{ClusterKey, Digest, Member, NodeId, PartitionId, Role};
use conflict_order::{Action, Body, Policy, Version};
use journal_lines::Refusal;
use std::fmt;
use wire_messages::{ReplyBody, ScanRefusal};

/// The name of a conflict policy.
#[derive(Clone, Copy)]
pub struct PolicyWord(pub Policy);

impl fmt::Display for PolicyWord {
    ghost output = { λ p. Some (texts.policy_word p.0) };

    fn fmt<W: fmt::Write>(&self, f: &mut fmt::Formatter<W>) -> fmt::Result {
        match self.0 {
            Policy::Time => write!(f, "time"),
            Policy::Generation => write!(f, "generation"),
        }
    }
}

/// What a request does, as a word.
#[derive(Clone, Copy)]
pub struct ActionWord(pub Action);

impl fmt::Display for ActionWord {
    ghost output = { λ a. Some (texts.action_word a.0) };

    fn fmt<W: fmt::Write>(&self, f: &mut fmt::Formatter<W>) -> fmt::Result {
        match self.0 {
            Action::Get => write!(f, "get"),
            Action::Put => write!(f, "put"),
            Action::Del => write!(f, "del"),
        }
    }
}

/// A version: its time, its generation and its body.
#[derive(Clone, Copy)]
pub struct VersionText<'a>(pub &'a Version);

impl fmt::Display for VersionText<'_> {
    ghost output = { λ v. Some (texts.version_text v.0.now) };

    fn fmt<W: fmt::Write>(&self, f: &mut fmt::Formatter<W>) -> fmt::Result {
        let time = self.0.lut;
        let generation = self.0.generation;
        match &self.0.body {
            Body::Tombstone => write!(f, "{time}.{generation}-"),
            Body::Value(bytes) => {
                let value = Digits(bytes.as_slice());
                write!(f, "{time}.{generation}={value}")
            }
        }
    }
}

/// A version, or the word for none.
#[derive(Clone, Copy)]
pub struct OptionalVersionText<'a>(pub &'a Option<Version>);

impl fmt::Display for OptionalVersionText<'_> {
    ghost output = { λ v. Some (texts.optional_text v.0.now) };

    fn fmt<W: fmt::Write>(&self, f: &mut fmt::Formatter<W>) -> fmt::Result {
        match self.0 {
            None => write!(f, "none"),
            Some(version) => {
                let version = VersionText(version);
                write!(f, "{version}")
            }
        }
    }
}

/// The rack and mark of a member, of which a plain one has none.
#[derive(Clone, Copy)]
pub struct RoleText(pub Role);

impl fmt::Display for RoleText {
    ghost output = { λ r. Some (texts.role_text r.0) };

    fn fmt<W: fmt::Write>(&self, f: &mut fmt::Formatter<W>) -> fmt::Result {
        let rack = self.0.rack;
        if self.0.quiesced {
            return write!(f, "/{rack}q");
        }
        if rack == 0 {
            return Ok(());
        }
        write!(f, "/{rack}")
    }
}

/// A member of a list.
#[derive(Clone, Copy)]
pub struct MemberText(pub Member);

impl fmt::Display for MemberText {
    ghost output = { λ m. Some (texts.member_text m.0) };

    fn fmt<W: fmt::Write>(&self, f: &mut fmt::Formatter<W>) -> fmt::Result {
        let id = self.0.id;
        let role = RoleText(self.0.role);
        write!(f, "{id}{role}")
    }
}

/// Members, each with a comma before it.
#[derive(Clone, Copy)]
struct MoreMembersText<'a>(&'a [Member]);

impl fmt::Display for MoreMembersText<'_> {
    ghost output = { λ l. Some (texts.more_members_text l.0.now) };

    fn fmt<W: fmt::Write>(&self, f: &mut fmt::Formatter<W>) -> fmt::Result {
        for member in self.0 {
            let member = MemberText(*member);
            write!(f, ",{member}")?;
        }
        Ok(())
    }
}

/// Members with commas between them, or the word for none.
#[derive(Clone, Copy)]
pub struct MembersText<'a>(pub &'a [Member]);

impl fmt::Display for MembersText<'_> {
    ghost output = { λ l. Some (texts.members_text l.0.now) };

    fn fmt<W: fmt::Write>(&self, f: &mut fmt::Formatter<W>) -> fmt::Result {
        match self.0 {
            [] => write!(f, "none"),
            [first, more @ ..] => {
                let first = MemberText(*first);
                let more = MoreMembersText(more);
                write!(f, "{first}{more}")
            }
        }
    }
}

/// The reply to a request.
#[derive(Clone, Copy)]
pub struct ReplyText<'a>(pub &'a ReplyBody);

impl fmt::Display for ReplyText<'_> {
    ghost output = { λ r. Some (texts.reply_text r.0.now) };

    fn fmt<W: fmt::Write>(&self, f: &mut fmt::Formatter<W>) -> fmt::Result {
        match self.0 {
            ReplyBody::Nothing => write!(f, "value none"),
            ReplyBody::Found(version) => {
                let version = VersionText(version);
                write!(f, "value {version}")
            }
            ReplyBody::Done => write!(f, "done"),
            ReplyBody::Exchanging(node) => write!(f, "refused exchanging {node}"),
            ReplyBody::NotMaster(node) => write!(f, "refused notmaster {node}"),
            ReplyBody::Busy(transaction) => write!(f, "refused busy {transaction}"),
            ReplyBody::NoView => write!(f, "refused noview"),
        }
    }
}

/// Why a node has no page for a scan.
#[derive(Clone, Copy)]
pub struct ScanRefusalText(pub ScanRefusal);

impl fmt::Display for ScanRefusalText {
    ghost output = { λ c. Some (texts.scan_refusal_text c.0) };

    fn fmt<W: fmt::Write>(&self, f: &mut fmt::Formatter<W>) -> fmt::Result {
        match self.0 {
            ScanRefusal::NoView => write!(f, "noview"),
            ScanRefusal::Exchanging(node) => write!(f, "exchanging {node}"),
            ScanRefusal::NotMaster(node) => write!(f, "notmaster {node}"),
            ScanRefusal::NotSettled => write!(f, "notsettled"),
            ScanRefusal::Open(transaction) => write!(f, "open {transaction}"),
        }
    }
}

/// Why a node refuses a request.
#[derive(Clone, Copy)]
pub struct RefusalText(pub Refusal);

impl fmt::Display for RefusalText {
    ghost output = { λ c. Some (texts.refusal_text c.0) };

    fn fmt<W: fmt::Write>(&self, f: &mut fmt::Formatter<W>) -> fmt::Result {
        match self.0 {
            Refusal::Down => write!(f, "down"),
            Refusal::NoView => write!(f, "noview"),
            Refusal::Exchanging(node) => write!(f, "exchanging {node}"),
            Refusal::NotMaster(node) => write!(f, "notmaster {node}"),
            Refusal::Busy(transaction) => write!(f, "busy {transaction}"),
        }
    }
}
