//! The laws of licensed runs. A call does nothing: what it ensures is the law.
ghost use Rattle.cluster_laws.specs.Picture.{start};
ghost use Rattle.cluster_laws.specs.Licences.{Licensed};
ghost use Rattle.cluster_laws.specs.Weaker.{Busy, Unbrought, Replica, Unsettled, Stale, Earlier, Unacknowledged, Incomplete, Late, lone, overtaken, conjured, lone_run, thrown_away, pair, dropped_early, sides, mistaken, settled_early, settled_in_part, handing_ground, written_late, Breaks, AtEnd};
ghost use Rattle.cluster_laws.specs.Laws.{Always, IsBounded, ClassesEnterEqual, GreatestIsStored, SettledHoldFold, OfLicensedRuns, ReadsAnswerFold};

/// In every view nothing that is held or sent is above the join of what the members held on entry and of
/// what was applied since; and nothing anywhere is above the join of all that was ever applied.
pub fn holds_no_more_than_the_fold()
    ensures { Always IsBounded }
{}

/// Members whose copies of a partition are in one class hold the same records as they enter.
pub fn equal_classes()
    ensures { Always ClassesEnterEqual }
{}

/// The greatest version of a record that was ever applied stands in some store, also between two lines
/// of one step.
pub fn no_loss()
    ensures { Always GreatestIsStored }
{}

/// Where a partition is settled and no write of its list master is open, each replica in the view holds
/// exactly the join of what members held on entry and of what was applied since.
pub fn settled_join()
    ensures { Always SettledHoldFold }
{}

/// A read answers the join of what members held on entry and of what was applied in the view before it,
/// and a write makes the next version of that join.
pub fn read_join()
    ensures { OfLicensedRuns ReadsAnswerFold }
{}

/// A node that is alone writes a record, enters another view with it and settles its partition: that run
/// is licensed.
pub fn a_lone_run_is_licensed()
    ensures { Licensed lone start lone_run }
{}

/// Nine licences made too weak: each allows a run that breaks a law.
pub fn weaker_licences_break_laws()
    ensures busy { Breaks Busy ReadsAnswerFold lone overtaken }
    ensures unbrought { Breaks Unbrought (AtEnd IsBounded) lone conjured }
    ensures replica { Breaks Replica (AtEnd GreatestIsStored) lone thrown_away }
    ensures unsettled { Breaks Unsettled (AtEnd GreatestIsStored) pair dropped_early }
    ensures stale { Breaks Stale (AtEnd GreatestIsStored) pair dropped_early }
    ensures earlier { Breaks Earlier ReadsAnswerFold (sides 1) mistaken }
    ensures unacknowledged { Breaks Unacknowledged (AtEnd SettledHoldFold) (sides 1) settled_early }
    ensures incomplete { Breaks Incomplete (AtEnd SettledHoldFold) (sides 2) settled_in_part }
    ensures late { Breaks Late (AtEnd SettledHoldFold) handing_ground written_late }
{}
