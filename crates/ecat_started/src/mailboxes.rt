//! The law of mailboxes behind a start, the contract of a function that does nothing.

ghost use Rattle.std.specs.Prelude.{List};
ghost use Rattle.std.specs.List.{AllByRecursion};
ghost use Rattle.ec_diag.specs.declared.located.Located.{Located};
ghost use Rattle.ec_ring.specs.Ring.{RingState};
ghost use Rattle.ec_run.specs.Watched.{WatchedState};
ghost use Rattle.ec_run.specs.declared.wanted.Wanted.{Wanted};
ghost use Rattle.ec_over_ring.specs.Brought.{ReachesAll};
ghost use Rattle.ec_over_ring.specs.Fit.{HasMailboxes};
ghost use Rattle.ec_over_ring.specs.Heard.{HeardRing};
ghost use Rattle.ec_over_ring.specs.Started.{AreWanted};
ghost use Rattle.ecat_master.specs.Identities.{WantedIdentity};
ghost use Rattle.ecat_master.specs.Start.{IsStarted};

/// A line that was started over a ring with at most one link down, of which nothing is lost. In the end sync
/// managers 0 and 1 of each of its slaves stand as they were wanted, whatever stood there before. Each was
/// read back when it was set, before Pre-Op, and nothing undoes it: neither the reads of identities and the
/// startup objects, whatever mails are in the mailboxes, nor the phases above Pre-Op.
pub fn mailboxes_stand()
    ensures { (line : List Wanted) (identities : List WantedIdentity) (cable : Located)
        (before later : WatchedState RingState) → ReachesAll before.ports → AreWanted line
        → IsStarted HeardRing before line identities cable later
        → AllByRecursion (HasMailboxes later.ports) line }
{}
