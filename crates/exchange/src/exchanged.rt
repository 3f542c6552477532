//! A finished exchange, and the map that it gives.
ghost use Rattle.std.specs.Prelude.{◌≡◌, ◌≢◌, true, None, Some, Contains, IfOk, vec_capacity};
ghost use Rattle.cluster_types.specs.Members.{ids_of};
ghost use Rattle.node_rules.specs.Exchange.{first_missing, exchange_key};
ghost use Rattle.node_rules.specs.Map as rules;
ghost use Rattle.partition_state.specs.Copies.{copies_at};
ghost use Rattle.exchange.specs.Met.{asked_by, served_entry, served_list, met_members, met, met_sends_to, without_row_of};
ghost use Rattle.exchange.specs.Rows.{AreRowsOf};
ghost use Rattle.exchange.specs.Served.{AreServed, served_at};

use crate::exchanging::Exchanging;
use crate::served::{Served, ServedTable};
use crate::view_rows::{ViewRows, take_row};
use cluster_types::{
    ClusterKey, MapEntry, MapView, Members, NoMemory, NodeId, NodeList, PartitionId, StateRow,
};
use node_rules::MemberRow;
use partition_lists::Lists;
use partition_state::States;
use std::alloc::Global;
use std::marker::Model;

/// A view of which the rows of all members are there.
#[derive(Drop)]
pub struct Exchanged {
    view: ViewRows,
    served: Vec<Served>,
}

impl Model for Exchanged {
    ghost use Rattle.std.specs.Prelude.{◌≡◌, true, None, vec_capacity};
    ghost use Rattle.node_rules.specs.Codes.{facts_codes};
    ghost use Rattle.node_rules.specs.Exchange.{first_missing};
    ghost use Rattle.exchange.specs.Met.{Met, met};
    ghost use Rattle.exchange.specs.Rows.{AreRowsOf};
    ghost use Rattle.exchange.specs.Served.{AreServed};

    ghost Value = { Met };

    ghost coded = { Prim.hlevel facts_codes };

    ghost view = { λ x.
        met x.view.me x.view.factor x.view.key x.view.lists x.view.rows.items true };

    ghost invariant = { λ x. AreRowsOf x.view.me x.view.lists x.view.rows.items
        (vec_capacity x.view.rows)
        × ((first_missing x.view.rows.items x.view.lists ≡ None)
        × AreServed x.view.lists x.view.rows.items x.served.items) };
}

impl Exchanged {
    pub(crate) fn of(view: ViewRows, served: Vec<Served>) -> Exchanged
        requires rows { AreRowsOf view.me view.lists view.rows.items (vec_capacity view.rows) }
        requires full { first_missing view.rows.items view.lists ≡ None }
        requires served { AreServed view.lists view.rows.items served.items }
        ensures { result ≡ met view.me view.factor view.key view.lists view.rows.items true }
    {
        Exchanged { view, served }
    }

    /// Who serves the partition.
    pub fn map(&self, p: PartitionId) -> MapEntry
        ensures { result ≡ served_entry self.now p }
    {
        let served = self.at(p);
        MapEntry {
            list: self.view.lists.list(p),
            acting: served.acting,
            all_empty: served.all_empty,
        }
    }

    /// The acting master of the partition, as the rows tell.
    pub fn acting(&self, p: PartitionId) -> NodeId
        ensures { result ≡ rules.acting_by_rows (served_list self.now p) self.now.exchange.rows p }
    {
        self.at(p).acting
    }

    /// Whether no member's copy of the partition had a record.
    pub fn is_all_empty(&self, p: PartitionId) -> bool
        ensures { result ≡ rules.all_empty (served_list self.now p) self.now.exchange.rows p }
    {
        self.at(p).all_empty
    }

    /// A copy of who serves each partition, with which the exchange can be finished later.
    pub fn served(&self, alloc: Global) -> Result<ServedTable, NoMemory>
        ensures { IfOk result (λ t. AreServed (met_members self.now) self.now.exchange.rows t) }
    {
        ServedTable::of(alloc, &self.served)
    }

    /// The state before the row of `from`, another member, came, and that row.
    pub fn without_last(self, from: NodeId) -> (Exchanging, StateRow)
        requires member { Contains (ids_of (met_members self)) from }
        requires other { from ≢ self.me }
        ensures exchanging { result.0 ≡ without_row_of self from }
        ensures row { rules.row_of_member self.exchange.rows from ≡ Some result.1 }
    {
        let Exchanged { mut view, served } = self;
        let row = take_row(&mut view.rows, from);
        (Exchanging::of(view, served), row)
    }

    /// The key of the view.
    pub fn key(&self) -> ClusterKey
        ensures { result ≡ exchange_key self.now.exchange.view }
    {
        self.view.key
    }

    /// The members of the view.
    pub fn members(&self) -> &Members
        ensures { result.now ≡ met_members self.now }
    {
        self.view.members()
    }

    /// The lists over the members.
    pub fn lists(&self) -> &Lists
        ensures { result.now ≡ met_members self.now }
    {
        &self.view.lists
    }

    /// The node's own row.
    pub fn own_row(&self) -> &StateRow
        ensures { rules.row_of_member self.now.exchange.rows self.now.me ≡ Some result.now }
    {
        self.view.own_row()
    }

    /// The rows of all members: the own one, and those that came, in the order in which they came.
    pub fn rows(&self) -> &[MemberRow]
        ensures { result.now ≡ self.now.exchange.rows }
    {
        self.view.rows.as_slice()
    }

    fn at(&self, p: PartitionId) -> Served
        ensures { result ≡ served_at (met_members self.now) self.now.exchange.rows p }
    {
        self.served[usize::from(p.number())]
    }

    fn states(&self, p: PartitionId) -> States
        ensures { result ≡ copies_at self.now.exchange.rows p }
    {
        States::of(&self.view.rows, p)
    }
}

impl MapView for Exchanged {
    ghost use Rattle.exchange.specs.Met.{served_entry, met_sends_to, asked_by};

    ghost entry = { served_entry };

    ghost sends_to = { met_sends_to };

    ghost asked_by = { asked_by };

    fn map(&self, p: PartitionId) -> MapEntry {
        Exchanged::map(self, p)
    }

    /// Whether `from` sends its copy of the partition to `to`: another node and a replica, whose
    /// copy isn't in its class, of which it is the first.
    fn sends(&self, p: PartitionId, from: NodeId, to: NodeId) -> bool {
        let view = &self.view;
        if self.is_all_empty(p) {
            return false;
        }
        view.is_replica(to, p) && from != to && self.states(p).sends(&view.lists.list(p), from, to)
    }

    /// The first node of each class but that of `by`, in list order.
    fn asks(&self, p: PartitionId, by: NodeId) -> NodeList {
        let view = &self.view;
        if self.is_all_empty(p) {
            return NodeList::new();
        }
        self.states(p).asked_by(&view.lists.list(p), by)
    }
}
