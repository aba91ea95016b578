//! Slaves that have left Op, and what the master does then.

ghost use Rattle.std.specs.Prelude.{◌≡◌, ◌≤◌, length};
ghost use Rattle.ec_wire.specs.Datagram.{nth};
ghost use Rattle.ec_run.specs.Recovery.{remedy_of, seen_in, steps_for, is_nobody, IsLookedAt};
ghost use Rattle.ec_run.specs.Recovery.{IsLookedUp, IsRecovered, tells_places};

use crate::ask::{Reply, ask};
use crate::phase::{ALL_STEPS, Phase, StepFault, bring_slave, steps_from};
use crate::step::Step;
use crate::wanted::Wanted;
use byteorder::{ByteOrder, LittleEndian};
use ec_diag::Located;
use ec_master::Ports;
use ec_regs::registers::AL_STATUS;
use ec_regs::{AlState, AlStatus};
use ec_services::{MasterFault, request};
use ec_wire::{Command, FrameBuf, address_of};

/// The bytes of AL status, two reserved bytes and the AL status code.
const STATUS_BYTES: usize = 6;

/// Where the AL status code stands in them.
const CODE_AT: usize = 4;

/// How often a slave is looked at again that did not answer: a copy may have been lost that passed it.
const MORE_LOOKS: u32 = 9;

/// What is seen at a station address.
#[derive(Clone, Copy, PartialEq, Eq, Debug)]
pub enum Seen {
    /// No copy of the question came back: nothing is known.
    Unheard,
    /// No slave answered: it is cut off, it has lost its station address, or the copy that passed it is lost.
    Nobody,
    /// One slave answered, in this state and without an error.
    In(AlState),
    /// One slave answered, in this state, with an error that stands and this AL status code.
    Error(AlState, u16),
    /// More than one slave answered.
    Several,
}

/// What the master does with a slave.
#[derive(Clone, Copy, PartialEq, Eq, Debug)]
pub enum Remedy {
    /// Nothing.
    Leave,
    /// It is brought up from this phase on.
    From(Phase),
    /// It is given its station address by its place, where every place is told by its distance from a port
    /// alone, and brought up from Init on.
    Address,
}

impl Seen {
    /// What the master does with a slave of which this is seen: the whole table. An error is acknowledged by
    /// asking for Init.
    pub fn remedy(self) -> Remedy
        ensures { result ≡ remedy_of self }
    {
        match self {
            Seen::Nobody => Remedy::Address,
            Seen::In(AlState::Init) => Remedy::From(Phase::PreOp),
            Seen::In(AlState::PreOp) => Remedy::From(Phase::Startup),
            Seen::In(AlState::SafeOp) => Remedy::From(Phase::Op),
            Seen::In(AlState::Op) => Remedy::Leave,
            Seen::Error(_, _) => Remedy::From(Phase::Init),
            Seen::Several | Seen::Unheard => Remedy::Leave,
        }
    }
}

/// What an answer to a read of AL status shows.
fn seen_in(reply: &Reply) -> Seen
    requires one { length reply.now.joined ≡ 1 }
    requires size { length (nth reply.now.joined 0).payload ≡ STATUS_BYTES }
    ensures { result ≡ seen_in reply.now }
{
    if !reply.heard {
        return Seen::Unheard;
    }
    match reply.joined.counter(0) {
        0 => Seen::Nobody,
        1 => {
            let bytes = reply.joined.data(0);
            let status = AlStatus::of_byte(bytes[0]);
            if status.error {
                Seen::Error(status.state, LittleEndian::read_u16(&bytes[CODE_AT..]))
            } else {
                Seen::In(status.state)
            }
        }
        _ => Seen::Several,
    }
}

/// Looks at the AL status of the slave with a station address.
pub fn look_at<P: Ports>(ports: &mut P, station: u16) -> Result<Seen, MasterFault>
    ensures looked { IsLookedAt P.trips ports.old station result ports.new }
    ensures never_lower { P.failed ports.old ≤ P.failed ports.new }
{
    let address = address_of(station, AL_STATUS);
    let sent = request(Command::Fprd, address, &[0; STATUS_BYTES]);
    match ask(ports, &sent) {
        Ok(reply) => Ok(seen_in(&reply)),
        Err(fault) => Err(fault),
    }
}

/// Did copies come back, and no slave had answered?
fn is_nobody(seen: Result<Seen, MasterFault>) -> bool
    ensures { result ≡ is_nobody seen }
{
    match seen {
        Ok(Seen::Nobody) => true,
        _ => false,
    }
}

/// Looks at the slave with a station address until it answers, at most `MORE_LOOKS` times more. A look of
/// which no copy comes back ends it: nothing is known then.
pub fn look_for<P: Ports>(ports: &mut P, station: u16) -> Result<Seen, MasterFault>
    ensures looked { IsLookedUp P.trips ports.old station result ports.new }
    ensures never_lower { P.failed ports.old ≤ P.failed ports.new }
{
    for _look in 0..MORE_LOOKS {
        let seen = look_at(ports, station);
        if !is_nobody(seen) {
            return seen;
        }
    }
    look_at(ports, station)
}

/// What became of a slave that was looked at.
#[derive(Clone, Copy, PartialEq, Eq, Debug)]
pub enum Outcome {
    /// Nothing was done.
    Left,
    /// It was seen so, and brought to Op.
    Brought(Seen),
    /// It could not be brought to Op.
    Failed(StepFault),
}

/// Does the place of each of so many slaves tell how a frame reaches it alone: is the cable whole, or broken
/// before the first slave or behind the last one?
pub fn tells_places(cable: Located, slaves: usize) -> bool
    ensures { result ≡ tells_places cable slaves }
{
    match cable {
        Located::Whole => true,
        Located::One(link) => link == 0 || link == slaves,
        _ => false,
    }
}

/// The steps of a remedy; none where nothing is done.
pub(crate) fn steps_for(remedy: Remedy, tells_places: bool) -> &'static [Step]
    ensures { result.now ≡ steps_for tells_places remedy }
{
    match remedy {
        Remedy::Leave => &[],
        Remedy::From(first) => steps_from(first),
        Remedy::Address if tells_places => &ALL_STEPS,
        Remedy::Address => &[],
    }
}

/// Looks at one slave of a line, and brings it to Op where it has left it (`Seen::remedy`).
pub fn recover<P: Ports>(ports: &mut P, place: u16, wanted: &Wanted, tells_places: bool) -> Outcome
    ensures recovers { IsRecovered P.trips ports.old place wanted.now tells_places result ports.new }
    ensures never_lower { P.failed ports.old ≤ P.failed ports.new }
{
    let seen = match look_for(ports, wanted.station) {
        Ok(seen) => seen,
        Err(_) => return Outcome::Left,
    };
    let steps = steps_for(seen.remedy(), tells_places);
    if steps.is_empty() {
        return Outcome::Left;
    }
    match bring_slave(ports, place, wanted, steps) {
        Ok(()) => Outcome::Brought(seen),
        Err(fault) => Outcome::Failed(fault),
    }
}
