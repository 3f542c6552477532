//! The partitions of a view that a tick looks at.
ghost use Rattle.std.specs.Prelude.{◌≡◌, ◌<◌, true, false};
ghost use Rattle.cluster_types.specs.Partitions.{partition_count};
ghost use Rattle.node_rules.specs.Copies.{holds_of};
ghost use Rattle.node_rules.specs.Facts.{Facts, list_at};
ghost use Rattle.node_rules.specs.Here as rules;
ghost use Rattle.node_rules.specs.Here.{IsAsleep};
ghost use Rattle.node_view.specs.Settlings.{here_of};
ghost use Rattle.node_view.specs.Views.{AreLive, IsInView, IsMoving, IsQuiet, IsSeenTo, facts_seen, is_known_empty, unsettled_count, with_live, with_unsettled, without_unsettled};

use crate::here::Here;
use crate::view::{Moving, View};
use cluster_types::{CopyState, PARTITIONS, PartitionId};
use record_store::RecordStore;

impl View {
    /// How the node stands to the partition.
    pub(crate) fn here(&self, moving: &Moving, store: &RecordStore, p: PartitionId) -> Here
        requires { IsMoving self.now moving.now }
        ensures { (f : Facts) → IsInView f self.now → f.store.content ≡ store.now.versions
            → here_of result ≡ rules.here f (list_at f p) p }
    {
        // The partition is one of those that the done row has.
        let _ = p.number();
        Here {
            acting: moving.map.acting(p) == self.me,
            master: self.is_master(p),
            replica: self.is_replica(self.me, p),
            handed: self.progress.is_handed(p),
            own_handed: self.progress.is_own_handed(p),
            settled: self.has_settled_bit(p),
            learnt: self.learnt.get(p),
            done: moving.emigration.is_done(p),
            all_done: self.progress.all_done(p),
            busy: self.txns.busy_on(p),
            empty: moving.map.is_all_empty(p),
            holds: holds(store, p),
        }
    }

    /// The partition becomes live or not, as it now stands.
    pub(crate) fn refresh(&mut self, p: PartitionId, store: &RecordStore)
        ensures same { self.new ≡ with_live self.old self.new.watch.live }
        ensures live { (f : Facts) → IsInView f self.old → f.store.content ≡ store.now.versions
            → IsSeenTo p f self.old.watch.live self.new.watch.live }
    {
        let is_live = self.is_live(p, store);
        self.set_live(p, is_live);
    }

    /// Whether a line may come of the partition as it now stands; not before the exchange is
    /// finished.
    fn is_live(&self, p: PartitionId, store: &RecordStore) -> bool
        ensures { (f : Facts) → IsInView f self.now → f.store.content ≡ store.now.versions
            → f.exchange.exchanged ≡ true → result ≡ false → IsQuiet f p }
    {
        match self.moving() {
            Some(moving) => self.is_live_in(moving, store, p),
            None => false,
        }
    }

    /// The same once the exchange is finished. Most partitions sleep, which is seen without a look
    /// at all that is known of them.
    fn is_live_in(&self, moving: &Moving, store: &RecordStore, p: PartitionId) -> bool
        requires { IsMoving self.now moving.now }
        ensures { (f : Facts) → IsInView f self.now → f.store.content ≡ store.now.versions
            → result ≡ false → IsQuiet f p }
    {
        if self.is_asleep(moving, p) {
            return false;
        }
        self.here(moving, store, p).is_live()
    }

    /// Whether the partition isn't settled and the node has nothing there to hand over or to settle.
    fn is_asleep(&self, moving: &Moving, p: PartitionId) -> bool
        requires { IsMoving self.now moving.now }
        ensures { result ≡ true → (f : Facts) → IsInView f self.now
            → IsAsleep (rules.here f (list_at f p) p) }
    {
        if self.has_settled_bit(p) {
            return false;
        }
        if self.is_master(p) {
            return moving.map.is_all_empty(p);
        }
        let is_acting = moving.map.acting(p) == self.me;
        if !is_acting {
            return true;
        }
        self.progress.is_own_handed(p)
    }

    /// Ticks look at the partitions of which a line may come; at none before the exchange is finished.
    pub(crate) fn wake_all(&mut self, store: &RecordStore)
        ensures same { self.new ≡ with_live self.old self.new.watch.live }
        ensures live { (f : Facts) → IsInView f self.old → f.store.content ≡ store.now.versions
            → AreLive f self.new.watch.live }
    {
        if !self.has_exchanged() {
            return;
        }
        for number in 0..PARTITIONS {
            self.refresh(partition_at(number), store);
        }
    }

    /// The partitions that aren't known settled are counted.
    pub(crate) fn count_unsettled(&mut self)
        ensures same { self.new ≡ with_unsettled self.old self.new.watch.unsettled }
        ensures count { (f : Facts) → IsInView f self.old
            → self.new.watch.unsettled ≡ unsettled_count f }
    {
        self.unsettled = self.number_unsettled();
    }

    /// The partition, which had no settled bit, is known settled now. It counted till then, unless
    /// it is known empty.
    pub(crate) fn count_settled(&mut self, p: PartitionId)
        requires { is_known_empty self.old p ≡ false → 0 < self.old.watch.unsettled }
        ensures { self.new ≡ without_unsettled self.old p }
    {
        if self.is_all_empty(p) {
            return;
        }
        self.unsettled -= 1;
    }

    /// How many partitions aren't known settled.
    fn number_unsettled(&self) -> u16
        ensures { result ≡ unsettled_count (facts_seen self.now) }
    {
        let mut unsettled = 0;
        for number in 0..PARTITIONS {
            if !self.knows_settled(partition_at(number)) {
                unsettled += 1;
            }
        }
        unsettled
    }
}

/// The partition of that number.
pub(crate) fn partition_at(number: u16) -> PartitionId
    requires { number < partition_count }
    ensures { result ≡ number }
{
    match PartitionId::new(number) {
        Some(p) => p,
        None => unreachable!(),
    }
}

/// Whether a record of the partition is held.
fn holds(store: &RecordStore, p: PartitionId) -> bool
    ensures { result ≡ holds_of store.now.versions p }
{
    match store.state(p) {
        CopyState::Empty => false,
        CopyState::Part => true,
        CopyState::Whole { .. } => true,
    }
}
