//! How a node stands to a partition, and what is due of that.
ghost use Rattle.std.specs.Prelude.{◌≡◌, ◌⊎◌, [], ℕ, false, Some, None};
ghost use Rattle.cluster_types.specs.declared.cluster_key.ClusterKey.{ClusterKey};
ghost use Rattle.node_rules.specs.Here as rules;
ghost use Rattle.node_rules.specs.Here.{IsAsleep, IsOver, lines_here};
ghost use Rattle.node_view.specs.declared.here.Settling.{Settling};
ghost use Rattle.node_view.specs.Settlings.{has_done_its_share, here_of, is_to_learn_or_drop, keeps, lines_of_settling, settling_of};

use cluster_types::PartitionId;

/// How a node stands to a partition once the exchange is finished.
#[derive(Clone, Copy, Debug)]
pub(crate) struct Here {
    /// It is the acting master by the rows.
    pub acting: bool,
    /// It is the list master.
    pub master: bool,
    pub replica: bool,
    /// It knows the partition handed over.
    pub handed: bool,
    /// It handed the partition over itself.
    pub own_handed: bool,
    /// It has the settled bit.
    pub settled: bool,
    /// It learnt the partition in its view.
    pub learnt: bool,
    /// It is done there.
    pub done: bool,
    /// It is done, and knows every other member done.
    pub all_done: bool,
    /// A transaction is open there.
    pub busy: bool,
    /// All copies were empty.
    pub empty: bool,
    /// It holds a record there.
    pub holds: bool,
}

/// What a tick does about a partition, in this order.
#[derive(Clone, Copy, Debug)]
pub struct Settling {
    pub partition: PartitionId,
    pub hands: bool,
    pub settles: bool,
    pub learns: bool,
    pub drops: bool,
}

impl Here {
    /// Whether the node has the partition and isn't to keep it: it acts, isn't the list master,
    /// and hasn't handed it over.
    fn keeps(&self) -> bool
        ensures { result ≡ keeps (here_of self.now) }
    {
        self.acting && !self.master && !self.own_handed
    }

    /// Whether it hands the partition over.
    fn hands(&self) -> bool
        ensures { result ≡ rules.hands (here_of self.now) }
    {
        self.acting && !self.master && !self.own_handed && self.all_done && !self.busy
    }

    /// Whether it settles the partition.
    fn settles(&self) -> bool
        ensures { result ≡ rules.settles (here_of self.now) }
    {
        self.master
            && !self.empty
            && !self.settled
            && !self.busy
            && (self.handed || self.acting && self.all_done)
    }

    /// Whether it learns the partition, which was settled before or is now.
    fn learns(&self) -> bool
        ensures { result ≡ rules.learns (here_of self.now) }
    {
        (self.settled || self.settles()) && self.replica && !self.learnt
    }

    /// Whether it drops its copy, where the partition was settled before or is now.
    fn drops(&self) -> bool
        ensures { result ≡ rules.drops (here_of self.now) }
    {
        (self.settled || self.settles()) && self.done && !self.replica && self.holds
    }

    /// Whether the partition, once it is settled, leaves the node nothing to do.
    pub fn has_done_its_share(&self) -> bool
        ensures { result ≡ has_done_its_share (here_of self.now) }
    {
        !self.keeps() && (self.learnt || !self.replica) && (self.replica || !self.holds)
    }

    /// Whether a line may come of the partition before anything else happens to it.
    pub fn is_live(&self) -> bool
        ensures { result ≡ false → IsAsleep (here_of self.now) ⊎ IsOver (here_of self.now) }
    {
        if self.settled {
            return !self.has_done_its_share();
        }
        self.keeps() || self.master && !self.empty
    }

    /// Whether the node has something to learn or to drop of a partition that was settled before.
    pub fn is_to_learn_or_drop(&self) -> bool
        ensures { result ≡ is_to_learn_or_drop (here_of self.now) }
    {
        self.settled && (self.learns() || self.drops())
    }
}

impl Settling {
    /// What a tick does about the partition, or `None` where that is nothing.
    pub(crate) fn of(p: PartitionId, here: &Here) -> Option<Settling>
        ensures some { (s : Settling) → result ≡ Some s → s ≡ settling_of p (here_of here.now) }
        ensures none { (me : ℕ) → (key : ClusterKey) → result ≡ None
            → lines_here me key p (here_of here.now) ≡ [] }
        ensures lines { (me : ℕ) → (key : ClusterKey)
            → lines_of_settling me key (settling_of p (here_of here.now))
            ≡ lines_here me key p (here_of here.now) }
    {
        let settling = Settling {
            partition: p,
            hands: here.hands(),
            settles: here.settles(),
            learns: here.learns(),
            drops: here.drops(),
        };
        if settling.hands || settling.settles || settling.learns || settling.drops {
            return Some(settling);
        }
        None
    }
}
