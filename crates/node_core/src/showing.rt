//! What a node shows of itself.
ghost use Rattle.std.specs.Prelude.{◌≡◌, ◌&&◌, true, false, is_some, None, IfOk, IfSome, OnErr};
ghost use Rattle.std.specs.FinMap as finite;
ghost use Rattle.std.specs.Option.{ForSome, option_copied};
ghost use Rattle.std.specs.Result.{result_err};
ghost use Rattle.node_rules.specs.Facts.{view_key, view_members};
ghost use Rattle.node_rules.specs.Requests.{map_entry, map_refusal};
ghost use Rattle.node_rules.specs.Standing.{is_at_rest};
ghost use Rattle.node_rules.specs.Transactions as rules;
ghost use Rattle.node_steps.specs.Viewing.{IsAsKept};
ghost use Rattle.node_view.specs.Views.{IsViewOf, with_view};

use crate::node::Node;
use cluster_types::{ClusterKey, Digest, MapEntry, Members, PartitionId, Role};
use conflict_order::Version;
use dup_resolve::Txn;
use journal_lines::Refusal;
use node_view::View;
use record_store::RecordStore;

impl Node {
    /// Whether the node runs.
    pub fn is_up(&self) -> bool
        ensures { result ≡ self.now.now.up }
    {
        self.up
    }

    /// The role that the node has.
    pub fn role(&self) -> Role
        ensures { result ≡ self.now.now.role }
    {
        self.role
    }

    /// The version that the node holds of the record, also while it is stopped.
    pub fn holds(&self, d: &Digest) -> Option<&Version>
        ensures { option_copied result ≡ finite.get self.now.now.store.content d.now }
    {
        self.store.get(d)
    }

    /// The node's own store.
    pub fn store(&self) -> &RecordStore
        ensures content { result.now.versions ≡ self.now.now.store.content }
        ensures stamps { result.now.stamps ≡ self.now.now.store.stamps }
        ensures policy { result.now.by ≡ self.now.now.store.by }
    {
        &self.store
    }

    /// The key and the members of the node's view, and `None` where it has none.
    pub fn view(&self) -> Option<(ClusterKey, Members)>
        ensures { result ≡ view_members self.now.now }
    {
        match self.own_view() {
            None => None,
            Some(view) => Some((view.key(), *view.members())),
        }
    }

    /// Who serves the partition, or why the node has no map: `Down`, `NoView` or `Exchanging`.
    pub fn map_entry(&self, p: PartitionId) -> Result<MapEntry, Refusal>
        ensures { result ≡ map_entry self.now.now p }
    {
        Ok(self.mapped()?.map_entry(p))
    }

    /// Whether the node has finished the exchange, knows each partition settled, has nothing to
    /// learn or drop, and has no open transaction.
    pub fn at_rest(&self) -> bool
        ensures { result ≡ (self.now.now.up && is_at_rest self.now.now) }
    {
        match self.mapped() {
            Err(_) => false,
            Ok(view) => {
                view.knows_all_settled()
                    && view.txns().is_empty()
                    && !view.is_to_learn_or_drop(&self.store)
            }
        }
    }

    /// The node's view, once its exchange is finished; or why the node has no map.
    pub(crate) fn mapped(&self) -> Result<&View, Refusal>
        ensures view { IfOk result (λ v. IsViewOf self.now.now v.now) }
        ensures exchanged { IfOk result (λ v. v.now.exchange.exchanged ≡ true) }
        ensures refused { result_err result ≡ map_refusal self.now.now }
        ensures unfinished { OnErr result
            ((self.now.now.up && self.now.now.exchange.exchanged) ≡ false) }
    {
        if !self.up {
            return Err(Refusal::Down);
        }
        let Some(view) = self.own_view() else {
            return Err(Refusal::NoView);
        };
        match view.exchanging() {
            Some(waiting) => Err(Refusal::Exchanging(waiting.missing())),
            None => Ok(view),
        }
    }

    /// What lasts for the node's view.
    pub(crate) fn own_view(&self) -> Option<&View>
        ensures some { is_some result ≡ is_some self.now.now.exchange.view }
        ensures none { result ≡ None → with_view self.now.now None ≡ self.now.now }
        ensures view { IfSome result (λ v. IsViewOf self.now.now v.now) }
    {
        match &self.view {
            None => None,
            Some(view) => Some(view),
        }
    }

    /// The key of the view, or `NONE`.
    pub(crate) fn view_key(&self) -> ClusterKey
        ensures { result ≡ view_key self.now.now }
    {
        match self.own_view() {
            None => ClusterKey::NONE,
            Some(view) => view.key(),
        }
    }

    /// The open transaction of that number.
    pub(crate) fn transaction(&self, t: u32) -> Option<&Txn>
        ensures some { is_some result ≡ is_some (rules.transaction self.now.now.transactions t) }
        ensures kept { IfSome result
            (λ x. ForSome (rules.transaction self.now.now.transactions t) (IsAsKept x.now)) }
    {
        self.own_view()?.transaction(t)
    }
}
