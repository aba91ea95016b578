//! The laws of a line whose slaves move while a cycle is on its way, each the contract of a function that
//! does nothing.

ghost use Rattle.std.specs.Prelude.{◌≡◌, ◌≤◌, List, length};
ghost use Rattle.ec_esc.specs.State.{ControllerState};
ghost use Rattle.ec_line.specs.Mapping.{mapping};
ghost use Rattle.ec_line.specs.Moving.{AllAlike, Visit, MovingTrips, joined_on_each, behind, CountsReturned};
ghost use Rattle.ec_line.specs.Moving.{AnsweredAtMoments, SameWritten, SameShownWritten};
ghost use Rattle.ec_line.specs.Run.{trips_run, TripsReady, CountsWholeAll, after_trips};
ghost use Rattle.ec_line.specs.Trip.{Trip};

use ec_esc::MOST_CONTROLLERS;

/// Over a fit line whose slaves move between the passages of a cycle's copies, each leaving its mapping, its
/// outputs and what it is shown: the working counters of each joined frame have moved as those count whom
/// the copies passed that came back, and behind the trips each controller has its mapping, and so reads,
/// writes, accepts, counts and takes where it did at first. Which copy comes first may differ from slave to
/// slave.
pub fn moving_trips()
    ensures counts { (ts : List Trip) (line : List ControllerState) (runs : List (List Visit))
        → TripsReady ts line → MovingTrips ts runs line → CountsReturned ts line (joined_on_each ts runs) }
    ensures alike { (ts : List Trip) (line : List ControllerState) (runs : List (List Visit))
        → TripsReady ts line → MovingTrips ts runs line → AllAlike line (behind runs line) }
    ensures mapping_stays { (ts : List Trip) (line : List ControllerState) (runs : List (List Visit))
        → TripsReady ts line → MovingTrips ts runs line → mapping (behind runs line) ≡ mapping line }
{}

/// Where the counters of such a line have moved as the whole line counts, whatever was lost or passed twice,
/// there is for each controller and frame one moment, its passage by a copy that came back, and the joined
/// frame is the answer of the controllers as they were at their moments; one that counts an entry was passed
/// by exactly one of the copies that came back. Each bit that an accepted request writes is then as if each
/// frame had passed each controller once; and so the applications are shown it, where in each frame the last
/// entry that shows its byte is the last that writes it.
pub fn good_moments()
    ensures answered { (ts : List Trip) (line : List ControllerState) (runs : List (List Visit))
        → length line ≤ MOST_CONTROLLERS → TripsReady ts line → MovingTrips ts runs line
        → CountsWholeAll ts line (joined_on_each ts runs)
        → AnsweredAtMoments ts line runs (joined_on_each ts runs) }
    ensures outputs { (ts : List Trip) (line : List ControllerState) (runs : List (List Visit))
        → length line ≤ MOST_CONTROLLERS → TripsReady ts line → MovingTrips ts runs line
        → CountsWholeAll ts line (joined_on_each ts runs)
        → SameWritten line (behind runs line) (after_trips ts line) }
    ensures shown { (ts : List Trip) (line : List ControllerState) (runs : List (List Visit))
        → length line ≤ MOST_CONTROLLERS → TripsReady ts line → MovingTrips ts runs line
        → CountsWholeAll ts line (joined_on_each ts runs)
        → SameShownWritten ts line (behind runs line) (after_trips ts line) }
{}

/// Trips over a line that stands still are trips over one that moves, at which nothing moves: what comes back
/// is the same, and so is the line behind them.
pub fn still_lines()
    ensures { (ts : List Trip) (line : List ControllerState) → (runs : List (List Visit))
        × MovingTrips ts runs line × (joined_on_each ts runs ≡ (trips_run ts line).joined)
        × (behind runs line ≡ (trips_run ts line).line) }
{}
