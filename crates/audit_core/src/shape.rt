//! What the shape of a journal asks of a line.
ghost use Rattle.std.specs.Prelude.{◌≡◌, ◌==◌, ◌||◌, ◌&&◌, IsTrue};
ghost use Rattle.std.specs.List.{list_any, list_all, concat};
ghost use Rattle.cluster_types.specs.Members.{AreMembers, ids_of};
ghost use Rattle.journal_readings.specs.Shape.{EntersFalling, end_nodes, is_header, refusal_nodes, reply_nodes, scan_refusal_nodes};
ghost use Rattle.audit_core.specs.Known.{is_declared, kept_view};
ghost use Rattle.audit_core.specs.Shapes as shapes;

use crate::judge::Judge;
use cluster_types::{ClusterKey, Groups, Member, Members, NodeId, NodeList};
use journal_lines::{Line, Refusal};
use wire_messages::{ReplyBody, ScanRefusal};

impl<'a> Judge<'a> {
    /// Whether the line fits the shape of the journal so far.
    pub fn keeps_shape(&self, l: &Line) -> bool
        ensures value { result ≡ shapes.fits_shape self.now l.now }
        ensures falling { IsTrue result → EntersFalling l.now }
    {
        self.follows_header(l)
            && self.declares_new(l)
            && self.names_declared(l)
            && self.enters_rightly(l)
            && self.names_entered(l)
            && self.follows_entries(l)
    }

    /// No line but those of a header stands before one of a header.
    fn follows_header(&self, l: &Line) -> bool
        ensures { result ≡ shapes.header_goes_on self.now l.now }
    {
        !self.begun || !is_header(l)
    }

    fn declares_new(&self, l: &Line) -> bool
        ensures { result ≡ shapes.declares_unknown_node self.now l.now }
    {
        match l {
            Line::Node { node, .. } => !self.is_declared(*node),
            _ => true,
        }
    }

    pub fn is_declared(&self, node: NodeId) -> bool
        ensures { result ≡ is_declared self.now node }
    {
        self.nodes.contains_key(&node.number())
    }

    /// Whether an end of a message is declared: a node, or the client, which is 0.
    fn is_end(&self, endpoint: u16) -> bool
        ensures { result ≡ list_all (is_declared self.now) (end_nodes endpoint) }
    {
        endpoint == 0 || self.nodes.contains_key(&endpoint)
    }

    fn are_declared(&self, members: &[Member]) -> bool
        ensures { result ≡ list_all (is_declared self.now) (ids_of members.now) }
    {
        members.iter().map(|m| m.id).all(|n| self.is_declared(n))
    }

    fn are_groups_declared(&self, groups: &Groups) -> bool
        ensures { result ≡ list_all (is_declared self.now) (concat groups.now) }
    {
        self.are_listed_declared(groups.as_slice())
    }

    fn are_listed_declared(&self, lists: &[NodeList]) -> bool
        ensures { result ≡ list_all (λ ids. list_all (is_declared self.now) ids) lists.now }
    {
        lists
            .iter()
            .all(|ids| self.are_ids_declared(ids.as_slice()))
    }

    fn are_ids_declared(&self, ids: &[NodeId]) -> bool
        ensures { result ≡ list_all (is_declared self.now) ids.now }
    {
        ids.iter().all(|n| self.is_declared(*n))
    }

    fn is_cause_declared(&self, cause: &Refusal) -> bool
        ensures { result ≡ list_all (is_declared self.now) (refusal_nodes cause.now) }
    {
        match cause {
            Refusal::Exchanging(n) => self.is_declared(*n),
            Refusal::NotMaster(n) => self.is_declared(*n),
            _ => true,
        }
    }

    fn is_reply_declared(&self, reply: &ReplyBody) -> bool
        ensures { result ≡ list_all (is_declared self.now) (reply_nodes reply.now) }
    {
        match reply {
            ReplyBody::Exchanging(n) => self.is_declared(*n),
            ReplyBody::NotMaster(n) => self.is_declared(*n),
            _ => true,
        }
    }

    fn is_scan_cause_declared(&self, cause: &ScanRefusal) -> bool
        ensures { result ≡ list_all (is_declared self.now) (scan_refusal_nodes cause.now) }
    {
        match cause {
            ScanRefusal::Exchanging(n) => self.is_declared(*n),
            ScanRefusal::NotMaster(n) => self.is_declared(*n),
            _ => true,
        }
    }

    /// Whether every node that the line names is declared by now.
    #[tactic(auto, unfolding(journal_readings::specs::Shape::named_nodes))]
    fn names_declared(&self, l: &Line) -> bool
        ensures { result ≡ shapes.names_known_nodes self.now l.now }
    {
        match l {
            Line::Clock { node, .. } => self.is_declared(*node),
            Line::Groups { groups } => self.are_groups_declared(groups.get()),
            Line::Tick { node } => self.is_declared(*node),
            Line::Stop { node } => self.is_declared(*node),
            Line::Start { node } => self.is_declared(*node),
            Line::Down { node } => self.is_declared(*node),
            Line::Up { node } => self.is_declared(*node),
            Line::Quiesce { node } => self.is_declared(*node),
            Line::Unquiesce { node } => self.is_declared(*node),
            Line::Deliver { from, to, .. } => self.is_end(*from) && self.is_end(*to),
            Line::Repeat { from, to, .. } => self.is_end(*from) && self.is_end(*to),
            Line::Cut { from, to, .. } => self.is_end(*from) && self.is_end(*to),
            Line::Sent { from, to, .. } => self.is_end(*from) && self.is_end(*to),
            Line::Short { endpoint } => self.is_end(*endpoint),
            Line::Stale { endpoint } => self.is_end(*endpoint),
            Line::Spent { endpoint } => self.is_end(*endpoint),
            Line::Promise { node, .. } => self.is_declared(*node),
            Line::Enter { node, members, .. } => {
                self.is_declared(*node) && self.are_declared(members.get().as_slice())
            }
            Line::Exchanged { node, .. } => self.is_declared(*node),
            Line::Opened { node, .. } => self.is_declared(*node),
            Line::Refused { node, cause, .. } => {
                self.is_declared(*node) && self.is_cause_declared(cause)
            }
            Line::Value { node, .. } => self.is_declared(*node),
            Line::Apply { node, .. } => self.is_declared(*node),
            Line::Done { node, .. } => self.is_declared(*node),
            Line::Aborted { node, .. } => self.is_declared(*node),
            Line::Doubt { node, .. } => self.is_declared(*node),
            Line::Merge { node, .. } => self.is_declared(*node),
            Line::Handed { node, .. } => self.is_declared(*node),
            Line::Settled { node, .. } => self.is_declared(*node),
            Line::Learn { node, .. } => self.is_declared(*node),
            Line::Drop { node, .. } => self.is_declared(*node),
            Line::Map {
                node,
                members,
                acting,
                ..
            } => {
                self.is_declared(*node)
                    && self.is_declared(*acting)
                    && self.are_declared(members.get().as_slice())
            }
            Line::Mapless { node, cause } => {
                self.is_declared(*node) && self.is_cause_declared(cause)
            }
            Line::Place { members, .. } => self.are_declared(members.get().as_slice()),
            Line::Holds { node, .. } => self.is_declared(*node),
            Line::Client { node, .. } => self.is_declared(*node),
            Line::Proxy { node, acting, .. } => {
                self.is_declared(*node) && self.is_declared(*acting)
            }
            Line::Proxied { node, reply, .. } => {
                self.is_declared(*node) && self.is_reply_declared(reply.get())
            }
            Line::Unproxied { node, .. } => self.is_declared(*node),
            Line::Call { node, .. } => self.is_declared(*node),
            Line::Again { node, .. } => self.is_declared(*node),
            Line::Reply { node, reply, .. } => {
                self.is_declared(*node) && self.is_reply_declared(reply.get())
            }
            Line::Scan { node, .. } => self.is_declared(*node),
            Line::Scanned { node, .. } => self.is_declared(*node),
            Line::Unscanned { cause, .. } => self.is_scan_cause_declared(cause),
            Line::Script { .. }
            | Line::Factor { .. }
            | Line::Node { .. }
            | Line::Policy { .. }
            | Line::Lost { .. }
            | Line::Blocked { .. }
            | Line::NoMessage { .. }
            | Line::Full { .. }
            | Line::Hash { .. }
            | Line::NoMap { .. }
            | Line::Table { .. }
            | Line::Calm { .. }
            | Line::CallFull
            | Line::NoOpen { .. }
            | Line::NoScan { .. }
            | Line::Rescan { .. }
            | Line::Page { .. }
            | Line::Record { .. } => true,
        }
    }

    /// Whether a node enters a view once, as one of its members, and with those with which others
    /// entered it.
    fn enters_rightly(&self, l: &Line) -> bool
        ensures value { result ≡ shapes.enters_rightly self.now l.now }
        ensures falling { IsTrue result → EntersFalling l.now }
    {
        match l {
            Line::Enter { node, key, members } => {
                let members = members.get();
                is_among(*node, members)
                    && !self.has_entered(*key, *node)
                    && self.agrees_on_members(*key, members)
            }
            _ => true,
        }
    }

    fn agrees_on_members(&self, key: ClusterKey, members: &Members) -> bool
        ensures { result ≡ shapes.agrees_with (kept_view self.now key) members.now }
    {
        match self.view_of(key) {
            None => true,
            Some(view) => view.members == *members,
        }
    }

    pub fn has_entered(&self, key: ClusterKey, node: NodeId) -> bool
        ensures { result ≡ shapes.has_entry self.now key node }
    {
        match self.view_of(key) {
            None => false,
            Some(view) => view.entry_of(node).is_some(),
        }
    }

    /// Whether a line of a node in its view names a view that the node has entered.
    fn names_entered(&self, l: &Line) -> bool
        ensures { result ≡ shapes.names_known_entry self.now l.now }
    {
        match l {
            Line::Exchanged { node, key } => self.has_entered(*key, *node),
            Line::Opened { node, key, .. } => self.has_entered(*key, *node),
            Line::Value { node, key, .. } => self.has_entered(*key, *node),
            Line::Apply { node, key, .. } => self.has_entered(*key, *node),
            Line::Merge { node, key, .. } => self.has_entered(*key, *node),
            Line::Done { node, key, .. } => self.has_entered(*key, *node),
            Line::Settled { node, key, .. } => self.has_entered(*key, *node),
            Line::Learn { node, key, .. } => self.has_entered(*key, *node),
            Line::Drop { node, key, .. } => self.has_entered(*key, *node),
            Line::Map { node, key, .. } => self.has_entered(*key, *node),
            _ => true,
        }
    }

    fn have_all_entered(&self, key: ClusterKey) -> bool
        ensures { result ≡ shapes.all_entered_in (kept_view self.now key) }
    {
        match self.view_of(key) {
            None => true,
            Some(view) => view.have_all_entered(),
        }
    }

    /// Whether a node finishes exchange, or shows a map, where all members have entered.
    fn follows_entries(&self, l: &Line) -> bool
        ensures { result ≡ shapes.follows_every_entry self.now l.now }
    {
        match l {
            Line::Exchanged { key, .. } => self.have_all_entered(*key),
            Line::Map { key, .. } => self.have_all_entered(*key),
            _ => true,
        }
    }
}

/// Whether the node is one of the members.
fn is_among(node: NodeId, members: &Members) -> bool
    ensures value { result ≡ list_any (λ m. m.id == node) members.now }
    ensures valid { AreMembers members.now }
{
    members.as_slice().iter().any(|m| m.id == node)
}

/// Whether the line is one of a header.
pub(crate) fn is_header(l: &Line) -> bool
    ensures { result ≡ is_header l.now }
{
    match l {
        Line::Script { .. } => true,
        Line::Factor { .. } => true,
        Line::Node { .. } => true,
        Line::Policy { .. } => true,
        _ => false,
    }
}
