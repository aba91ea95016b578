//! The laws of a master that runs over a network, each the contract of a function that does nothing.

ghost use Rattle.std.specs.Prelude.{◌≢◌, ◌+◌, ◌*◌, ◌^◌, ◌<◌, ℕ, List, Option, length};
ghost use Rattle.std.specs.List.{AllByRecursion};
ghost use Rattle.ec_diag.specs.declared.located.Located.{Located};
ghost use Rattle.ec_regs.specs.declared.al.AlState.{AlState};
ghost use Rattle.ec_run.specs.Cycles.{End, items_sent};
ghost use Rattle.ec_run.specs.Watched.{WatchedState};
ghost use Rattle.ec_run.specs.declared.cycles.Cycles.{Cycles};
ghost use Rattle.ec_run.specs.declared.wanted.Wanted.{Wanted};
ghost use Rattle.ecat_master.specs.Course.{IsRound, Rounds, round_trips, sides_of};
ghost use Rattle.ecat_master.specs.Identities.{WantedIdentity};
ghost use Rattle.ecat_master.specs.Leaving.{IsLeft, leaving_trips};
ghost use Rattle.ecat_master.specs.Start.{IsStarted, start_trips};
ghost use Rattle.ecat_master.specs.declared.run.LinePlan.{LinePlan};
ghost use Rattle.ecat_remote.specs.History.{PastTrip, Went};
ghost use Rattle.ecat_remote.specs.Trips.{RemoteState, HeardTrips};
ghost use Rattle.ecat_running.specs.History.{IsHistory, WayLeft};
ghost use Rattle.ecat_running.specs.Own.{IsOwn};

use ecat_master::{Pace, Task};
use ecat_remote::{Carrier, a_good_is_of_its_cycle, no_number_is_given_twice};

/// The trips of a run are one history: those of its start (`started`), of any number of its rounds, from the
/// first on (`rounds`: cycles, looks at the cable and at slaves, turns of recoveries), and those by which its
/// slaves are left (`left`). Histories follow each other (`joined`), and over fewer than 2^63 trips no trip
/// has the number of an earlier one (`fresh`).
pub fn trips_of_a_run<C: Carrier, D: Task, T: Pace>()
    ensures started { (before later : WatchedState (RemoteState C)) (line : List Wanted)
        (identities : List WantedIdentity) (cable : Located)
        → IsStarted (HeardTrips C.gives C.heard) before line identities cable later
        → IsHistory before.ports (start_trips (length line) identities) later.ports }
    ensures rounds { (planned : LinePlan) (n : ℕ) (s after : Cycles)
        (before later : WatchedState (RemoteState C)) (last : Option End)
        → Rounds (sides_of (HeardTrips C.gives C.heard) D.listens D.held T.over) planned n s before last after
        later
        → IsHistory before.ports (n * round_trips (length s.asked) planned.plan.now.stop) later.ports }
    ensures left { (state : Option AlState) (slaves : ℕ) (before later : WatchedState (RemoteState C))
        (left : WayLeft) → IsLeft (HeardTrips C.gives C.heard) state slaves before left later
        → IsHistory before.ports leaving_trips later.ports }
    ensures joined { (m n : ℕ) (before between later : RemoteState C) → IsHistory before m between
        → IsHistory between n later → IsHistory before (m + n) later }
    ensures fresh { (n : ℕ) (before later : RemoteState C) (history : IsHistory before n later) → n < 2 ^ 63
        → AllByRecursion (λ (p : PastTrip). p.number ≢ later.next) history.past }
{
    no_number_is_given_twice::<C>();
}

/// Each cycle of a run over a network, whichever round it is made in: `IsOwn` says of which copies its end
/// tells, and what that says of the ring. Its items are those that are cycled on, with the outputs that the
/// task held before it.
pub fn cycles_of_a_run<C: Carrier, D: Task, T: Pace>()
    ensures own { (planned : LinePlan) (s after : Cycles) (before later : WatchedState (RemoteState C))
        (end : End)
        → (round : IsRound (sides_of (HeardTrips C.gives C.heard) D.listens D.held T.over) planned s before
        end after later)
        → IsOwn C.gives C.heard before.ports (record {
          items = items_sent planned.plan.now.outputs round.supplied;
          expected = planned.expected.now;
          end = end;
          brought = round.cycle.brought;
        }) round.behind.ports }
{
    a_good_is_of_its_cycle::<C>();
}
