//! Requests.
ghost use Rattle.std.specs.Prelude.{◌≡◌, ◌+◌, ◌∷◌, [], None, IfOk, OnErr, OnOk};
ghost use Rattle.cluster_types.specs.Partitions.{partition_of};
ghost use Rattle.journal_lines.specs.declared.line.Line.TheVariants as line;
ghost use Rattle.wire_messages.specs.Requests.{IsWant};
ghost use Rattle.wire_messages.specs.Versions.{AreBytes, IsDigest};
ghost use Rattle.node_rules.specs.Effects.{lines_only};
ghost use Rattle.node_rules.specs.Facts.{list_at};
ghost use Rattle.node_rules.specs.Requests.{due_request, request_refusal};
ghost use Rattle.node_rules.specs.Steps.{after_request, planning, unplanned};
ghost use Rattle.node_core.specs.declared.answered.Answered.TheVariants as answered;
ghost use Rattle.node_steps.specs.Counts.{HaveNumbers};
ghost use Rattle.node_core.specs.Requests.{request_answer};
ghost use Rattle.node_steps.specs.Spelled.{spelled};

use crate::answered::Answered;
use crate::node::Node;
use cluster_types::{Digest, NoMemory};
use conflict_order::Want;
use journal_lines::{Line, Refusal};
use node_steps::{Effects, Planned, plan_opened};
use std::alloc::Global;

impl Node {
    /// Plans a request on a record. It is refused for the first cause that holds, and otherwise
    /// opens a transaction.
    pub fn request(
        &mut self,
        alloc: Global,
        d: Digest,
        want: Want,
        clock: u64,
    ) -> Result<(Answered, Effects), NoMemory>
        requires counts { HaveNumbers self.old.now }
        ensures answer { IfOk result (λ r. r.0 ≡ request_answer self.old.now d) }
        ensures effects { IfOk result (λ r. r.1 ≡ spelled (due_request self.old.now clock d want)) }
        ensures planned { OnOk result
            (self.new ≡ planning self.old.now (after_request self.old.now clock d want)) }
        ensures err { OnErr result (self.new ≡ unplanned self.old.now) }
    {
        self.give_up();
        match self.refusal_of(&d) {
            Some(cause) => self.refuse(alloc, d, &cause),
            None => self.open_transaction(alloc, d, want, clock),
        }
    }

    fn refuse(
        &mut self,
        alloc: Global,
        digest: Digest,
        cause: &Refusal,
    ) -> Result<(Answered, Effects), NoMemory>
        requires unplanned { self.old.next ≡ None }
        ensures answer { IfOk result (λ r. r.0 ≡ answered.Refused cause.now) }
        ensures effects { IfOk result
            (λ r. r.1 ≡ spelled (lines_only (line.Refused self.old.now.me digest cause.now ∷ []))) }
        ensures planned { OnOk result (self.new ≡ planning self.old.now self.old.now) }
        ensures err { OnErr result (self.new ≡ self.old) }
    {
        let refused = Line::Refused {
            node: self.me,
            digest,
            cause: *cause,
        };
        let out = Effects::of_line(alloc, refused)?;
        Ok((Answered::Refused(*cause), self.plan(out, Planned::Nothing)))
    }

    /// Opens a transaction, for which nothing stands in the way.
    fn open_transaction(
        &mut self,
        alloc: Global,
        digest: Digest,
        want: Want,
        clock: u64,
    ) -> Result<(Answered, Effects), NoMemory>
        requires unplanned { self.old.next ≡ None }
        requires counts { HaveNumbers self.old.now }
        requires accepted { request_refusal self.old.now
            (list_at self.old.now (partition_of digest)) digest
            ≡ None }
        ensures answer { IfOk result
            (λ r. r.0 ≡ answered.Opened (self.old.now.transactions.opened + 1)) }
        ensures effects { IfOk result
            (λ r. r.1 ≡ spelled (due_request self.old.now clock digest want)) }
        ensures planned { OnOk result
            (self.new ≡ planning self.old.now (after_request self.old.now clock digest want)) }
        ensures err { OnErr result (self.new ≡ self.old) }
    {
        are_spelled(&digest, &want);
        let Some(view) = &mut self.view else {
            unreachable!()
        };
        let (transaction, step, out) = plan_opened(
            alloc,
            &mut self.store,
            view,
            digest,
            want,
            clock,
        )?;
        let step = Box::new(alloc, step)?;
        self.planned = Some(Planned::View(step));
        Ok((Answered::Opened(transaction), out))
    }

    /// Why the node refuses a request on the record: first what keeps it from having a map, then
    /// that it doesn't act on the partition, then that a transaction is open on the record.
    fn refusal_of(&self, digest: &Digest) -> Option<Refusal>
        ensures { result ≡ request_refusal self.now.now
            (list_at self.now.now (partition_of digest.now)) digest.now }
    {
        match self.mapped() {
            Err(cause) => Some(cause),
            Ok(view) => view.acting_refusal(digest),
        }
    }
}

/// The digest and the want have a spelling. A call does nothing: what it ensures is the law.
fn are_spelled(digest: &Digest, want: &Want)
    ensures digest { IsDigest digest.now }
    ensures want { IsWant want.now }
{
    are_bytes(digest.as_slice());
    if let Want::Put(value) = want {
        are_bytes(value.as_slice());
    }
}

/// Bytes are below 256. A call does nothing: what it ensures is the law.
fn are_bytes(bytes: &[u8])
    ensures { AreBytes bytes.now }
{
    let _ = bytes;
}
