//! What the lines of a step change, and what they owe.
ghost use Rattle.std.specs.Prelude.{◌≡◌, ◌<◌, ◌++◌, [], Some, None, IsTrue, IfOk, OnOk, length, option_map, slice_get};
ghost use Rattle.std.specs.List.{list_any};
ghost use Rattle.std.specs.Option.{option_copied};
ghost use Rattle.conflict_order.specs.declared.want.Want.TheVariants as want;
ghost use Rattle.journal_lines.specs.declared.line.Line.{Line};
ghost use Rattle.node_rules.specs.Notes.{request_want};
ghost use Rattle.node_steps.specs.Spelled.{spelled_sends};
ghost use Rattle.request_rules.specs.LineNotes.{note_request, noted_requests};
ghost use Rattle.request_rules.specs.Replies.{found_body, refusal_body};
ghost use Rattle.request_rules.specs.TakenUp.{owed, owed_by_line};
ghost use Rattle.node_requests.specs.declared.change.Change.TheVariants as change;
ghost use Rattle.node_requests.specs.Changes.{CanMakeAll, all_changed, change_of, ending, kept, refusing};
ghost use Rattle.node_requests.specs.Planned.{CanAllCount, CanCount, ChangesNothing, HaveSpellings, passes_on};

use crate::change::{Change, bound_behind_all, send_owed};
use cluster_types::{ClusterKey, Digest, NoMemory, NodeId};
use conflict_order::{Action, ValueBytes, Version, Want};
use item_lists::OwnedList;
use journal_text::{Line, LineList, Refusal};
use node_steps::SendList;
use proxy_path::Proxies;
use request_rules::{Asker, Passed};
use std::alloc::Global;
use wire_codec::ReplyBody;

/// What is in hand as a step is planned.
#[derive(Drop)]
pub(crate) struct Planner<'a> {
    pub proxies: &'a Proxies,
    /// The key of the view in which the step began.
    pub key: ClusterKey,
    pub asker: Option<Asker>,
    pub want: Option<&'a Want>,
}

impl<'a> Planner<'a> {
    /// The changes that the lines make, one after another. The replies that they owe are added to the
    /// messages.
    pub fn plan(
        &self,
        alloc: Global,
        lines: &LineList,
        sends: &mut SendList,
    ) -> Result<OwnedList<Change>, NoMemory>
        requires count { CanAllCount self.now.asker (option_copied self.now.want)
            (kept self.now.proxies.now) lines.now }
        requires spelled { HaveSpellings
            (owed self.now.key self.now.asker self.now.proxies.now.taken lines.now) }
        ensures changes { IfOk result (λ cs. all_changed (kept self.now.proxies.now) cs
            ≡ noted_requests self.now.asker (option_copied self.now.want)
            (kept self.now.proxies.now) lines.now) }
        ensures can { IfOk result (CanMakeAll (kept self.now.proxies.now)) }
        ensures sends { OnOk result (sends.new ≡ sends.old ++ spelled_sends
            (owed self.now.key self.now.asker self.now.proxies.now.taken lines.now)) }
    {
        if self.changes_nothing(lines) {
            return Ok(OwnedList::new(alloc));
        }
        self.plan_lines(alloc, lines, sends)
    }

    /// Whether nothing is kept, nobody asks, and no line passes a request on: then nothing changes.
    fn changes_nothing(&self, lines: &LineList) -> bool
        ensures { IsTrue result
            → ChangesNothing self.now.asker (kept self.now.proxies.now) lines.now }
    {
        self.asker.is_none()
            && self.proxies.given() == 0
            && self.proxies.is_idle()
            && !passes_on(lines)
    }

    /// The same, line by line.
    fn plan_lines(
        &self,
        alloc: Global,
        lines: &LineList,
        sends: &mut SendList,
    ) -> Result<OwnedList<Change>, NoMemory>
        requires count { CanAllCount self.now.asker (option_copied self.now.want)
            (kept self.now.proxies.now) lines.now }
        requires spelled { HaveSpellings
            (owed self.now.key self.now.asker self.now.proxies.now.taken lines.now) }
        ensures changes { IfOk result (λ cs. all_changed (kept self.now.proxies.now) cs
            ≡ noted_requests self.now.asker (option_copied self.now.want)
            (kept self.now.proxies.now) lines.now) }
        ensures can { IfOk result (CanMakeAll (kept self.now.proxies.now)) }
        ensures sends { OnOk result (sends.new ≡ sends.old ++ spelled_sends
            (owed self.now.key self.now.asker self.now.proxies.now.taken lines.now)) }
    {
        let mut changes = OwnedList::new(alloc);
        for i in 0..lines.len() {
            if let Some(line) = lines.get(i) {
                self.plan_line(alloc, line, &mut changes, sends)?;
            }
        }
        Ok(changes)
    }

    /// Adds the change that the line makes behind these, if it makes one, and the reply that it owes.
    fn plan_line(
        &self,
        alloc: Global,
        line: &Line,
        changes: &mut OwnedList<Change>,
        sends: &mut SendList,
    ) -> Result<(), NoMemory>
        requires count { CanCount self.now.asker
            (all_changed (kept self.now.proxies.now) changes.old) line.now }
        requires spelled { HaveSpellings (owed_by_line self.now.key self.now.asker
            (all_changed (kept self.now.proxies.now) changes.old).taken line.now) }
        requires can { CanMakeAll (kept self.now.proxies.now) changes.old }
        ensures changes { OnOk result (all_changed (kept self.now.proxies.now) changes.new
            ≡ note_request self.now.asker (option_copied self.now.want)
            (all_changed (kept self.now.proxies.now) changes.old) line.now) }
        ensures can_still { OnOk result (CanMakeAll (kept self.now.proxies.now) changes.new) }
        ensures sends { OnOk result (sends.new ≡ sends.old ++ spelled_sends
            (owed_by_line self.now.key self.now.asker
            (all_changed (kept self.now.proxies.now) changes.old).taken line.now)) }
    {
        let Some(change) = self.change_of(alloc, line, changes)? else {
            return Ok(());
        };
        send_owed(alloc, self.key, &change, sends)?;
        changes.push(change)
    }

    /// The change that the line makes behind these, if it makes one.
    fn change_of(
        &self,
        alloc: Global,
        line: &Line,
        changes: &OwnedList<Change>,
    ) -> Result<Option<Change>, NoMemory>
        ensures { IfOk result (λ c. c ≡ change_of self.now.asker (option_copied self.now.want)
            (all_changed (kept self.now.proxies.now) changes.now).taken line.now) }
    {
        match line {
            Line::Opened { transaction, .. } => Ok(binding(self.asker, *transaction)),
            Line::Refused { cause, .. } => Ok(refusing(self.asker, cause)),
            Line::Value {
                transaction,
                version,
                ..
            } => {
                let bound = bound_behind_all(self.proxies, changes, *transaction);
                reading(alloc, bound, *transaction, version.get())
            }
            Line::Done { transaction, .. } => {
                let bound = bound_behind_all(self.proxies, changes, *transaction);
                Ok(ending(bound, *transaction, ReplyBody::Done))
            }
            Line::Proxy {
                digest,
                action,
                acting,
                ..
            } => self.passing(alloc, *digest, *action, *acting),
            Line::Proxied { number, .. } => Ok(Some(Change::Close { number: *number })),
            Line::Unproxied { number, .. } => Ok(Some(Change::Close { number: *number })),
            Line::Enter { .. } => Ok(Some(Change::Leave)),
            Line::Stop { .. } => Ok(Some(Change::Leave)),
            _ => Ok(None),
        }
    }

    /// A request is passed on to that node.
    fn passing(
        &self,
        alloc: Global,
        digest: Digest,
        action: Action,
        to: NodeId,
    ) -> Result<Option<Change>, NoMemory>
        ensures { IfOk result (λ c. c ≡ Some (change.PassOn (record {
          digest = digest;
          want = request_want (option_copied self.now.want) action;
          to = to;
        }))) }
    {
        let want = wanted(alloc, self.want, action)?;
        Ok(Some(Change::PassOn(Passed { digest, want, to })))
    }
}

/// Whether a request is passed on at one of the lines.
fn passes_on(lines: &LineList) -> bool
    ensures { result ≡ list_any passes_on lines.now }
{
    for i in 0..lines.len() {
        if passes_on_at(lines, i) {
            return true;
        }
    }
    false
}

/// Whether a request is passed on at the line at that place.
fn passes_on_at(lines: &LineList, i: usize) -> bool
    requires { i < length lines.now }
    ensures { (l : Line) → slice_get lines.now i ≡ Some l → result ≡ passes_on l }
{
    match lines.get(i) {
        Some(Line::Proxy { .. }) => true,
        _ => false,
    }
}

/// What a request wants: the want in hand, and without one what its line tells.
fn wanted(alloc: Global, want: Option<&Want>, action: Action) -> Result<Want, NoMemory>
    ensures { IfOk result (λ w. w ≡ request_want (option_copied want.entry) action) }
{
    match want {
        Some(want) => want.copy(alloc),
        None => want_of(alloc, action),
    }
}

/// What a request wants by what its line tells alone, which tells no value of a put.
fn want_of(alloc: Global, action: Action) -> Result<Want, NoMemory>
    ensures { IfOk result (λ w. w ≡ request_want None action) }
{
    match action {
        Action::Get => Ok(Want::Get),
        Action::Put => put_of_nothing(alloc),
        Action::Del => Ok(Want::Del),
    }
}

/// To put a value of no bytes.
fn put_of_nothing(alloc: Global) -> Result<Want, NoMemory>
    ensures { IfOk result (λ w. w ≡ want.Put []) }
{
    match ValueBytes::from_slice(alloc, &[]) {
        Ok(value) => Ok(Want::Put(value)),
        Err(_) => Err(NoMemory),
    }
}

/// The asker in hand, if there is one, has its request taken up.
fn binding(asker: Option<Asker>, transaction: u32) -> Option<Change>
    ensures { result ≡ option_map (λ a. change.Bind a transaction) asker }
{
    let asker = asker?;
    Some(Change::Bind { asker, transaction })
}

/// The asker in hand, if there is one, is refused.
fn refusing(asker: Option<Asker>, cause: &Refusal) -> Option<Change>
    ensures { result ≡ refusing asker (refusal_body cause.now) }
{
    let asker = asker?;
    let reply = refusal_body(cause)?;
    Some(Change::Refuse { asker, reply })
}

/// The reply that tells a refusal; none of a stopped node.
fn refusal_body(cause: &Refusal) -> Option<ReplyBody>
    ensures { result ≡ refusal_body cause.now }
{
    match cause {
        Refusal::Down => None,
        Refusal::NoView => Some(ReplyBody::NoView),
        Refusal::Exchanging(member) => Some(ReplyBody::Exchanging(*member)),
        Refusal::NotMaster(acting) => Some(ReplyBody::NotMaster(*acting)),
        Refusal::Busy(transaction) => Some(ReplyBody::Busy(*transaction)),
    }
}

/// The read ended, which was taken up for that asker, if for anybody.
fn reading(
    alloc: Global,
    bound: Option<Asker>,
    transaction: u32,
    version: &Option<Version>,
) -> Result<Option<Change>, NoMemory>
    ensures { IfOk result (λ c. c ≡ ending bound transaction (found_body version.now)) }
{
    if bound.is_none() {
        return Ok(None);
    }
    let reply = found_body(alloc, version)?;
    Ok(ending(bound, transaction, reply))
}

/// The reply that tells what a read found.
fn found_body(alloc: Global, version: &Option<Version>) -> Result<ReplyBody, NoMemory>
    ensures { IfOk result (λ b. b ≡ found_body version.now) }
{
    match version {
        Some(version) => Ok(ReplyBody::Found(version.copy(alloc)?)),
        None => Ok(ReplyBody::Nothing),
    }
}

/// The transaction ended with this reply, which was taken up for that asker, if for anybody.
fn ending(bound: Option<Asker>, transaction: u32, reply: ReplyBody) -> Option<Change>
    ensures { result ≡ ending bound transaction reply }
{
    let asker = bound?;
    Some(Change::End {
        asker,
        transaction,
        reply,
    })
}
