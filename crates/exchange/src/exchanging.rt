//! An exchange in which rows are missing.
ghost use Rattle.std.specs.Prelude.{◌≡◌, true, false, None, Some, Contains, IfOk, IsSome, length, vec_capacity};
ghost use Rattle.cluster_types.specs.Members.{ids_of};
ghost use Rattle.cluster_types.specs.Partitions.{partition_count};
ghost use Rattle.node_rules.specs.Exchange.{begun, first_missing, exchange_key, with_row};
ghost use Rattle.node_rules.specs.Map as rules;
ghost use Rattle.exchange.specs.Met.{Met, finished_with, met_members, met, with_row_of};
ghost use Rattle.exchange.specs.Rows.{AreRowsOf};
ghost use Rattle.exchange.specs.Served.{AreServed};
ghost use Rattle.exchange.specs.Steps.{step_of};

use crate::exchanged::Exchanged;
use crate::served::{Served, ServedTable, fill, room};
use crate::view_rows::{ViewRows, add_row, lacks};
use cluster_types::{ClusterKey, Members, NoMemory, NodeId, StateRow};
use node_rules::MemberRow;
use partition_lists::Lists;
use std::alloc::Global;
use std::marker::Model;

/// A view of whose members some rows are missing.
#[derive(Drop)]
pub struct Exchanging {
    view: ViewRows,
    room: Vec<Served>,
}

impl Model for Exchanging {
    ghost use Rattle.std.specs.Prelude.{◌≡◌, false, IsSome, length, vec_capacity};
    ghost use Rattle.cluster_types.specs.Partitions.{partition_count};
    ghost use Rattle.node_rules.specs.Codes.{facts_codes};
    ghost use Rattle.node_rules.specs.Exchange.{first_missing};
    ghost use Rattle.exchange.specs.Met.{Met, met};
    ghost use Rattle.exchange.specs.Rows.{AreRowsOf};

    ghost Value = { Met };

    ghost coded = { Prim.hlevel facts_codes };

    ghost view = { λ x.
        met x.view.me x.view.factor x.view.key x.view.lists x.view.rows.items false };

    ghost invariant = { λ x. AreRowsOf x.view.me x.view.lists x.view.rows.items
        (vec_capacity x.view.rows)
        × (IsSome (first_missing x.view.rows.items x.view.lists)
        × (length x.room.items ≡ partition_count)) };
}

/// How far an exchange has come.
#[derive(Drop)]
pub enum ExchangeStep {
    /// Rows are missing.
    Waiting(Exchanging),
    /// All rows are there.
    Complete(Exchanged),
}

/// The exchange of a view as it is entered, with the own row. `me` is a member.
pub fn begin(
    alloc: Global,
    key: ClusterKey,
    members: Members,
    me: NodeId,
    factor: u8,
    row: StateRow,
) -> Result<ExchangeStep, NoMemory>
    requires { Contains (ids_of members) me }
    ensures { IfOk result (λ s.
        s ≡ step_of (record { me = me; factor = factor; exchange = begun me key members row })) }
{
    let lists = Lists::of(alloc, &members)?;
    begin_with(alloc, key, lists, me, factor, row)
}

/// The same where the lists over its members are at hand.
pub fn begin_with(
    alloc: Global,
    key: ClusterKey,
    lists: Lists,
    me: NodeId,
    factor: u8,
    row: StateRow,
) -> Result<ExchangeStep, NoMemory>
    requires { Contains (ids_of lists) me }
    ensures { IfOk result (λ s.
        s ≡ step_of (record { me = me; factor = factor; exchange = begun me key lists row })) }
{
    let room = room(alloc)?;
    let mut rows = Vec::with_capacity(alloc, lists.members().len())?;
    rows.push(MemberRow { node: me, row })?;
    let view = ViewRows {
        key,
        me,
        factor,
        lists,
        rows,
    };
    Ok(step(view, room))
}

impl Exchanging {
    pub(crate) fn of(view: ViewRows, room: Vec<Served>) -> Exchanging
        requires rows { AreRowsOf view.me view.lists view.rows.items (vec_capacity view.rows) }
        requires missing { IsSome (first_missing view.rows.items view.lists) }
        requires room { length room.items ≡ partition_count }
        ensures { result ≡ met view.me view.factor view.key view.lists view.rows.items false }
    {
        Exchanging { view, room }
    }

    /// A State of the view came from a member. Its row is kept if that member's isn't there.
    pub fn on_state(self, from: NodeId, row: StateRow) -> ExchangeStep
        requires { Contains (ids_of (met_members self)) from }
        ensures { result ≡ step_of (with_row_of self from row) }
    {
        if !self.lacks(from) {
            return ExchangeStep::Waiting(self);
        }
        let Exchanging { mut view, room } = self;
        add_row(&mut view.rows, from, row);
        step(view, room)
    }

    /// The row of the last member came, and with it the partitions are served as the table says.
    pub fn finish(self, last: NodeId, row: StateRow, table: ServedTable) -> Exchanged
        requires member { Contains (ids_of (met_members self)) last }
        requires lacking { rules.lacks self.exchange.rows last ≡ true }
        requires whole { first_missing (with_row self.exchange.rows last row) (met_members self)
            ≡ None }
        requires served { AreServed (met_members self)
            (with_row self.exchange.rows last row) table }
        ensures { result ≡ finished_with self last row }
    {
        let Exchanging { mut view, room: _ } = self;
        add_row(&mut view.rows, last, row);
        Exchanged::of(view, table.into_served())
    }

    /// The first member, in member order, whose row isn't there.
    pub fn missing(&self) -> NodeId
        ensures { first_missing self.now.exchange.rows (met_members self.now) ≡ Some result }
    {
        match self.view.first_missing() {
            Some(n) => n,
            None => unreachable!(),
        }
    }

    /// Whether the node's row isn't there.
    pub fn lacks(&self, n: NodeId) -> bool
        ensures { result ≡ rules.lacks self.now.exchange.rows n }
    {
        lacks(&self.view.rows, n)
    }

    /// The key of the view.
    pub fn key(&self) -> ClusterKey
        ensures { result ≡ exchange_key self.now.exchange.view }
    {
        self.view.key
    }

    /// The members of the view.
    pub fn members(&self) -> &Members
        ensures { result.now ≡ met_members self.now }
    {
        self.view.members()
    }

    /// The lists over the members.
    pub fn lists(&self) -> &Lists
        ensures { result.now ≡ met_members self.now }
    {
        &self.view.lists
    }

    /// The node's own row.
    pub fn own_row(&self) -> &StateRow
        ensures { rules.row_of_member self.now.exchange.rows self.now.me ≡ Some result.now }
    {
        self.view.own_row()
    }

    /// The rows that are there: the own one, and those that came, in the order in which they came.
    pub fn rows(&self) -> &[MemberRow]
        ensures { result.now ≡ self.now.exchange.rows }
    {
        self.view.rows.as_slice()
    }
}

/// Whether all rows are there decides between the two.
fn step(view: ViewRows, room: Vec<Served>) -> ExchangeStep
    requires rows { AreRowsOf view.me view.lists view.rows.items (vec_capacity view.rows) }
    requires room { length room.items ≡ partition_count }
    ensures { result ≡ step_of (met view.me view.factor view.key view.lists view.rows.items false) }
{
    if view.first_missing().is_some() {
        return ExchangeStep::Waiting(Exchanging::of(view, room));
    }
    let mut served = room;
    fill(&mut served, &view);
    ExchangeStep::Complete(Exchanged::of(view, served))
}
