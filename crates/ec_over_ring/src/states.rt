//! The laws of the states that a cycle tells, each the contract of a function that does nothing.

ghost use Rattle.std.specs.Prelude.{◌≡◌, ℕ, false, List, Some};
ghost use Rattle.ec_line.specs.Moving.{Visit};
ghost use Rattle.ec_regs.specs.declared.al.AlState.TheVariants.{Op};
ghost use Rattle.ec_esc.specs.Application.{al_status};
ghost use Rattle.ec_esc.specs.State.{NamesState};
ghost use Rattle.ec_app.specs.State.{SlaveState};
ghost use Rattle.ec_map.specs.Item.{ItemRecord};
ghost use Rattle.ec_ring.specs.Ring.{RingState, line_of};
ghost use Rattle.ec_ring.specs.declared.weather.Weather.{Weather};
ghost use Rattle.ec_master.specs.Given.{AllThatCame};
ghost use Rattle.ec_master.specs.Moments.{AllGivenByMoving, IsMovingCycle};
ghost use Rattle.ec_master.specs.Suffice.{AllGivenBy};
ghost use Rattle.ec_master.specs.Travelled.{ring_under, trips_under};
ghost use Rattle.ec_master.specs.Unordered.{by_station};
ghost use Rattle.ec_master.specs.WeatherTrips.{InWeather};
ghost use Rattle.ec_run.specs.Cycles.{items_sent};
ghost use Rattle.ec_run.specs.declared.cycles.Cycles.{Cycles};
ghost use Rattle.ec_run.specs.declared.outputs.Outputs.{Outputs};
ghost use Rattle.ec_over_ring.specs.InOp.{CycleTellsAllInOp, IsToldAllInOp, TellsAllInOp};
ghost use Rattle.ec_over_ring.specs.InOpMoving.{CountsAsExpected, IsToldAllInOpMoving, PortsTellAllInOp};
ghost use Rattle.ec_over_ring.specs.InOpMoving.{TellsAllInOpMoving, WereInOp};

use ec_master::Ports;
use ec_master::between::accepted_by_mapping;
use ec_master::certificate::{good_image, weathers_give};
use ec_master::moments::good_at_one_moment;
use ec_master::promises::the_cut;

/// Where the last item of a cycle is the one that reads the states of all slaves (`ec_run::states_item`), the
/// cycle's verdict is good, in whatever weather, and its image tells that all are in Op
/// (`ec_run::tells_all_in_op`), each slave whose AL status names a state is in Op and has no error.
///
/// Of slaves that take no step while the frames travel it is so as the cycle finds them (`before`) and as the
/// cycle leaves them (`behind`), since the items of a cycle leave AL status as it is. So it is in each cycle
/// of a running master (`ec_run::Cycles`), with any outputs, over a ring in any weather (`by_cycles`). Over
/// whatever ports, it is so of each ring of which the cycle says what one over that ring says (`told`), as it
/// says of each that would have given what came (`ec_run::Cycles::cycle`).
///
/// Of slaves whose applications act while the frames travel (`ec_master::moments`) it is so of each at its
/// moment (`moving`): on the trip of the last frame, which has that item, exactly one copy that came back
/// passed the slave, and as that copy met it, it was in Op and had no error. Between two slaves the moments
/// may differ; and nothing is said of AL status as the cycle finds it and as it leaves it, since a slave may
/// change its state before that passage and behind it. Over whatever ports, it is so of each ring of which
/// the cycle says what one over that ring says (`told_moving`).
pub fn all_in_op()
    ensures before { (ws : List Weather) (r : RingState) (items sent : List ItemRecord) (n : ℕ)
        (s : SlaveState) → TellsAllInOp ws r items sent → by_station r.slaves n ≡ Some s
        → NamesState s.controller.memory
        → al_status s.controller ≡ record { state = Op; error = false } }
    ensures behind { (ws : List Weather) (r : RingState) (items sent : List ItemRecord) (n : ℕ)
        (s : SlaveState) → TellsAllInOp ws r items sent → by_station (ring_under ws r sent).slaves n ≡ Some s
        → NamesState s.controller.memory
        → al_status s.controller ≡ record { state = Op; error = false } }
    ensures by_cycles { (before later : InWeather) (outputs : Outputs) (expected : List ℕ)
        (cycles after : Cycles) (n : ℕ) (s : SlaveState)
        → CycleTellsAllInOp before later outputs expected cycles after
        → by_station before.ring.slaves n ≡ Some s → NamesState s.controller.memory
        → al_status s.controller ≡ record { state = Op; error = false } }
    ensures told { (ws : List Weather) (r : RingState) (items sent image : List ItemRecord) (n : ℕ)
        (s : SlaveState) → IsToldAllInOp ws r items sent image → by_station r.slaves n ≡ Some s
        → NamesState s.controller.memory
        → al_status s.controller ≡ record { state = Op; error = false } }
    ensures moving { (ws : List Weather) (r : RingState) (items sent : List ItemRecord)
        (runs : List (List Visit)) → TellsAllInOpMoving ws r items sent runs
        → WereInOp (trips_under ws r sent) runs }
    ensures told_moving { (ws : List Weather) (r : RingState) (items sent image : List ItemRecord)
        (runs : List (List Visit)) → IsToldAllInOpMoving ws r items sent image runs
        → WereInOp (trips_under ws r sent) runs }
{
    good_image();
    weathers_give();
    accepted_by_mapping();
    good_at_one_moment();
    the_cut();
}

/// In a good cycle of a running master over whatever ports (`ec_run::Cycles::cycle`), which asks for the
/// states last and whose image tells that all are in Op, it is so of each ring that would have given what
/// came, in any weather: whether its slaves take no step while the frames travel (`still`), or their
/// applications act meanwhile, and then of each slave at its moment (`moving`), as [`all_in_op`] says it.
pub fn all_in_op_over_ports<P: Ports>()
    ensures still { (before later : P) (outputs : Outputs) (expected : List ℕ) (cycles after : Cycles)
        (came : AllThatCame) (ws : List Weather) (r : RingState) (n : ℕ) (s : SlaveState)
        → PortsTellAllInOp P.trips before later outputs expected cycles after came
        → CountsAsExpected r expected cycles.asked
        → AllGivenBy (trips_under ws r (items_sent outputs cycles)) (line_of r) came
        → by_station r.slaves n ≡ Some s → NamesState s.controller.memory
        → al_status s.controller ≡ record { state = Op; error = false } }
    ensures moving { (before later : P) (outputs : Outputs) (expected : List ℕ) (cycles after : Cycles)
        (came : AllThatCame) (ws : List Weather) (r : RingState) (runs : List (List Visit))
        → PortsTellAllInOp P.trips before later outputs expected cycles after came
        → CountsAsExpected r expected cycles.asked → IsMovingCycle ws r (items_sent outputs cycles) runs
        → AllGivenByMoving (trips_under ws r (items_sent outputs cycles)) runs came
        → WereInOp (trips_under ws r (items_sent outputs cycles)) runs }
{
    accepted_by_mapping();
    the_cut();
}
