//! The law of ports that are others, seen so: the contract of a function that does nothing.

ghost use Rattle.std.specs.Prelude.{ℕ, Bool, List, Result};
ghost use Rattle.ec_regs.specs.declared.al.AlState.{AlState};
ghost use Rattle.ec_services.specs.declared.fault.MasterFault.{MasterFault};
ghost use Rattle.ec_run.specs.Alike.{AreTripsOf};
ghost use Rattle.ec_run.specs.Along.{IsAlong};
ghost use Rattle.ec_run.specs.Counting.{IsCounted};
ghost use Rattle.ec_run.specs.Cycles.{End, IsCycle, IsRun};
ghost use Rattle.ec_run.specs.Phase.{Brings};
ghost use Rattle.ec_run.specs.Recovering.{RecoveryState};
ghost use Rattle.ec_run.specs.Recovery.{IsLookedUp, IsRecovered};
ghost use Rattle.ec_run.specs.States.{Leaves};
ghost use Rattle.ec_run.specs.Travels.{IsWithin};
ghost use Rattle.ec_run.specs.Turns.{IsTurn};
ghost use Rattle.ec_run.specs.declared.along.Along.{Along};
ghost use Rattle.ec_run.specs.declared.cycles.Cycles.{Cycles};
ghost use Rattle.ec_run.specs.declared.outputs.Outputs.{Outputs};
ghost use Rattle.ec_run.specs.declared.phase.StepFault.{StepFault};
ghost use Rattle.ec_run.specs.declared.recovery.Outcome.{Outcome};
ghost use Rattle.ec_run.specs.declared.recovery.Seen.{Seen};
ghost use Rattle.ec_run.specs.declared.step.Step.{Step};
ghost use Rattle.ec_run.specs.declared.turns.Turn.{Turn};
ghost use Rattle.ec_run.specs.declared.wanted.Wanted.{Wanted};

use ec_master::Ports;

/// Of ports only their trips count: where each trip over some ports is one over others, with the ports before
/// and after it as `f` sees them, what a running master does over the first it does over those. So it is of
/// steps with the slaves of a line ([`crate::bring`]; `brings`), of a count of slaves
/// ([`crate::count_slaves`]; `counted`), of looks ([`crate::look_for`]; `looked_up`, and along a line,
/// [`crate::look_along`]; `looked_along`), of recoveries ([`crate::recover`]; `recovered`) and turns of one
/// ([`crate::Recovery::turn`]; `turned`), of a cycle ([`crate::Cycles::cycle`]; `cycle`) and a course of
/// cycles (`run`), of a line that is left in a state ([`crate::leave`]; `left`), and of so many trips at the
/// most (`within`). So a law over a ring is one over any ports that are that ring, seen so.
pub fn over_like_ports<P: Ports, Q: Ports>()
    ensures brings { (f : P → Q) → AreTripsOf f P.trips Q.trips → (before later : P) (place : ℕ)
        (line : List Wanted) (steps : List Step) (result : Result (Unit {0}) StepFault)
        → Brings P.trips before place line steps result later
        → Brings Q.trips (f before) place line steps result (f later) }
    ensures counted { (f : P → Q) → AreTripsOf f P.trips Q.trips → (before later : P)
        (count : Result ℕ MasterFault) → IsCounted P.trips before count later
        → IsCounted Q.trips (f before) count (f later) }
    ensures looked_up { (f : P → Q) → AreTripsOf f P.trips Q.trips → (before later : P) (station : ℕ)
        (seen : Result Seen MasterFault) → IsLookedUp P.trips before station seen later
        → IsLookedUp Q.trips (f before) station seen (f later) }
    ensures recovered { (f : P → Q) → AreTripsOf f P.trips Q.trips → (before later : P) (place : ℕ)
        (wanted : Wanted) (tells_places : Bool) (outcome : Outcome)
        → IsRecovered P.trips before place wanted tells_places outcome later
        → IsRecovered Q.trips (f before) place wanted tells_places outcome (f later) }
    ensures looked_along { (f : P → Q) → AreTripsOf f P.trips Q.trips → (before later : P)
        (line : List Wanted) (first : ℕ) (result : Result Along MasterFault)
        → IsAlong P.trips before line first result later
        → IsAlong Q.trips (f before) line first result (f later) }
    ensures turned { (f : P → Q) → AreTripsOf f P.trips Q.trips → (before later : P) (wanted : Wanted)
        (recovery : RecoveryState) (turn : Turn) → IsTurn P.trips before wanted recovery turn later
        → IsTurn Q.trips (f before) wanted recovery turn (f later) }
    ensures cycle { (f : P → Q) → AreTripsOf f P.trips Q.trips → (before later : P) (outputs : Outputs)
        (expected : List ℕ) (s after : Cycles) (end : End)
        → IsCycle P.trips before outputs expected s end after later
        → IsCycle Q.trips (f before) outputs expected s end after (f later) }
    ensures run { (f : P → Q) → AreTripsOf f P.trips Q.trips → (outputs : Outputs) (expected : List ℕ)
        (start now : Cycles) → IsRun P.trips outputs expected start now
        → IsRun Q.trips outputs expected start now }
    ensures left { (f : P → Q) → AreTripsOf f P.trips Q.trips → (most : ℕ) (before later : P)
        (state : AlState) (slaves : ℕ) (result : Result (Unit {0}) MasterFault)
        → Leaves P.trips before state slaves most result later
        → Leaves Q.trips (f before) state slaves most result (f later) }
    ensures within { (f : P → Q) → AreTripsOf f P.trips Q.trips → (most : ℕ) (before later : P)
        → IsWithin P.trips most before later → IsWithin Q.trips most (f before) (f later) }
{}
