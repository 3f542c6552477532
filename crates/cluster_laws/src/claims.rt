//! What holds of the journal of a licensed run, read off its lines alone. A call does nothing: what it
//! ensures is the law. docs/LAWS.md says what is asked of a journal.
ghost use Rattle.journal_readings.specs.Claims.{EqualClasses, NoLoss, OneMap, ReadJoin, SettledJoin};
ghost use Rattle.cluster_laws.specs.Journals.{IsJournal, OfJournals, lone_header, shown_run};
ghost use Rattle.cluster_laws.specs.Weaker.{lone};

/// After every line the newest version of a record in any store is the newest that was ever applied.
pub fn no_loss()
    ensures { OfJournals NoLoss }
{}

/// Where a partition is settled, no write of its list master is open and the list master is still in the
/// view, each replica in the view holds exactly the join of what the members held on entry and of what was
/// applied since.
pub fn settled_join()
    ensures { OfJournals SettledJoin }
{}

/// A read answers the join of its view, and a write makes the next version of it.
pub fn read_join()
    ensures { OfJournals ReadJoin }
{}

/// Members that finished the exchange under one key show one map: the one that the view's members and the
/// states of their copies on entry give.
pub fn one_map()
    ensures { OfJournals OneMap }
{}

/// Members whose copies of a partition are in one class held the same of each of its records as they entered.
pub fn equal_classes()
    ensures { OfJournals EqualClasses }
{}

/// The run of a node that is alone, with its header and the map that it shows, is such a journal.
pub fn a_lone_run_is_a_journal()
    ensures { IsJournal lone_header lone shown_run }
{}
