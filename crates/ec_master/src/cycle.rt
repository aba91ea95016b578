//! A master's cycle over any two ports.

ghost use Rattle.std.specs.Prelude.{◌≡◌, ◌≤◌, ◌<◌, Err, OnOk, IfErr, length, map};
ghost use Rattle.ec_line.specs.Answered.{sent_of};
ghost use Rattle.ec_master.specs.Cut.{frames_of};
ghost use Rattle.ec_master.specs.declared.cycle.CycleFault.TheVariants.{Port};
ghost use Rattle.ec_master.specs.Ports.{PortTrip, Sends, IsAnswered, IsPortCycle};
ghost use Rattle.ec_master.specs.Suffice.{FramesSuffice};

use crate::cut::frame_from;
use crate::ports::Ports;
use crate::verdict::{Verdict, conclude};
use crate::work::Work;
use ec_merge::join_frames;
use ec_wire::FrameBuf;

/// Why a cycle has no verdict.
#[derive(Clone, Copy, PartialEq, Eq, Debug)]
pub enum CycleFault {
    /// A frame could not be sent, or its copies could not be received.
    Port,
    /// A copy came back that is none of the frame that was sent.
    Stranger,
}

/// Sends a frame and joins its copies.
fn carry<P: Ports>(ports: &mut P, sent: &FrameBuf) -> Result<FrameBuf, CycleFault>
    ensures trip { PortTrip P.trips ports.old sent.now result ports.new }
    ensures counted { result ≡ Err Port → P.failed ports.old < P.failed ports.new }
    ensures never_lower { P.failed ports.old ≤ P.failed ports.new }
{
    match ports.trip(sent) {
        Ok(came) => {
            join_frames(sent, came.a.as_ref(), came.b.as_ref()).map_err(|_| CycleFault::Stranger)
        }
        Err(_) => Err(CycleFault::Port),
    }
}

/// Sends the frames of a work one after the other and joins the copies of each. Another work with the same
/// items takes the answers.
fn carry_all<P: Ports>(ports: &mut P, work: &Work, taken: &mut Work) -> Result<(), CycleFault>
    requires { taken.old ≡ work.now }
    ensures answers { OnOk result (IsAnswered P.trips ports.old work.now taken.new ports.new) }
    ensures fault { IfErr result (λ fault.
        Sends P.trips ports.old (map sent_of (frames_of work.now)) (Err fault) ports.new) }
    ensures counted { IfErr result (λ fault. fault ≡ Port → P.failed ports.old < P.failed ports.new) }
    ensures never_lower { P.failed ports.old ≤ P.failed ports.new }
{
    let mut first = 0;
    while first < work.len() {
        let joined = carry(ports, &frame_from(work, first))?;
        taken.take_answers(first, &joined);
        first += joined.count();
    }
    Ok(())
}

/// A cycle over ports as `run_cycle` makes it, with a second work as room for what was sent: nothing but the
/// items is copied. What the second work holds before and after does not matter.
pub fn run_cycle_in<P: Ports>(
    ports: &mut P,
    work: &mut Work,
    expected: &[u16],
    sent: &mut Work,
) -> Result<Verdict, CycleFault>
    requires { length expected.now ≡ length work.old }
    ensures cycle { IsPortCycle P.trips ports.old work.old expected.now result work.new ports.new }
    ensures frames_suffice { FramesSuffice P.trips ports.old work.old expected.now result work.new ports.new }
    ensures counted { result ≡ Err Port → P.failed ports.old < P.failed ports.new }
    ensures never_lower { P.failed ports.old ≤ P.failed ports.new }
{
    work.are_items();
    sent.assign(work);
    match carry_all(ports, sent, work) {
        Ok(()) => Ok(conclude(work, sent, expected)),
        Err(fault) => {
            work.assign(sent);
            Err(fault)
        }
    }
}

/// A cycle over ports: the work's frames go out one after the other, the copies of each are joined, and
/// the counters of the answers are judged (`cycle`). On a good verdict, and only then, the work takes the
/// answers. At the first trip that fails, and at the first copy that is none of its frame, the cycle ends
/// without a verdict. It is handed no allocator, so it takes no memory but what the ports' own calls take.
///
/// Nothing else is known of what came; but of each ring that would have given it, all is known that a cycle
/// over the ring says, memories included, and of each whose applications act meanwhile what
/// `good_at_one_moment` says (`frames_suffice`). Where each cycle begins its round
/// (`Work::begin_round`), each counter is expected below 4,096, and no copy is late by more than fifteen
/// rounds or gained more than 1,023, a good verdict rests on no late copy (`this_round` of `frames_suffice`).
pub fn run_cycle<P: Ports>(
    ports: &mut P,
    work: &mut Work,
    expected: &[u16],
) -> Result<Verdict, CycleFault>
    requires { length expected.now ≡ length work.old }
    ensures cycle { IsPortCycle P.trips ports.old work.old expected.now result work.new ports.new }
    ensures frames_suffice { FramesSuffice P.trips ports.old work.old expected.now result work.new ports.new }
    ensures counted { result ≡ Err Port → P.failed ports.old < P.failed ports.new }
    ensures never_lower { P.failed ports.old ≤ P.failed ports.new }
{
    run_cycle_in(ports, work, expected, &mut Work::new())
}
