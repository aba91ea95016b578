//! A look along a line: which slave does not say that it is in Op.

ghost use Rattle.std.specs.Prelude.{◌≡◌, ◌≤◌, ◌<◌, ◌+◌, ◌∷◌, [], IfOk, Err, drop, length, map, take};
ghost use Rattle.ec_wire.specs.Datagram.{nth, record_of};
ghost use Rattle.ec_services.specs.declared.fault.MasterFault.TheVariants.{Port};
ghost use Rattle.ec_run.specs.Along.{AreRead, IsAlong, IsSent, along_in, first_out, state_read, tells_op};

use crate::wanted::Wanted;
use ec_master::Ports;
use ec_merge::join_frames;
use ec_regs::registers::AL_STATUS;
use ec_services::{Back, MasterFault, request};
use ec_wire::{Command, Datagram, FrameBuf, address_of};

/// How many slaves one frame asks at the most: so many reads leave room for what ports put behind them.
pub const MOST_ASKED: usize = 100;

/// What the byte of AL status says, but for its upper three bits, of a slave in Op without an error.
const OP: u8 = 8;

/// The values of state and error bit.
const STATES: u8 = 32;

/// What a look along a line shows.
#[derive(Clone, Copy, PartialEq, Eq, Debug)]
pub struct Along {
    /// How many slaves were asked; none where no copy came back.
    pub asked: usize,
    /// Which of these, counted from 0, is the first of which it is not told that it is in Op without an
    /// error: it may be in another state, be cut off, or the copy that passed it may be lost.
    pub out: Option<usize>,
}

/// The read of the AL status of a slave.
fn state_read(wanted: &Wanted) -> Datagram
    ensures { record_of result ≡ state_read wanted.now }
{
    request(
        Command::Fprd,
        address_of(wanted.station, AL_STATUS),
        &[0; 2],
    )
}

/// Reads of AL status in one frame, of the slave at a place and of those behind it: so many of them, and no
/// more than one frame asks.
fn states_read(line: &[Wanted], first: usize, most: usize) -> FrameBuf
    requires { first < length line.now }
    ensures { AreRead line.now first result }
{
    let mut frame = FrameBuf::of(&state_read(&line[first]));
    let end = line.len().min(first.saturating_add(most.min(MOST_ASKED)));
    for place in first + 1..end {
        match frame.push(&state_read(&line[place])) {
            Ok(()) => {}
            Err(_) => break,
        }
    }
    frame
}

/// Does a datagram of an answer tell that one slave is in Op without an error?
fn tells_op(joined: &FrameBuf, k: usize) -> bool
    requires { k < length joined.now }
    ensures { result ≡ tells_op (nth joined.now k) }
{
    match joined.data(k).first() {
        Some(status) => joined.counter(k) == 1 && *status % STATES == OP,
        None => false,
    }
}

/// The first datagram of an answer that does not tell it, if there is one.
fn first_out(joined: &FrameBuf) -> Option<usize>
    ensures { result ≡ first_out joined.now 0 }
{
    for k in 0..joined.count() {
        if !tells_op(joined, k) {
            return Some(k);
        }
    }
    None
}

/// Sends a frame, and joins the copies that come back of it.
fn send<P: Ports>(ports: &mut P, frame: &FrameBuf) -> Result<Back, MasterFault>
    ensures sent { IsSent P.trips ports.old frame.now result ports.new }
    ensures never_lower { P.failed ports.old ≤ P.failed ports.new }
{
    let came = match ports.trip(frame) {
        Ok(came) => came,
        Err(_) => return Err(MasterFault::Port),
    };
    match join_frames(frame, came.a.as_ref(), came.b.as_ref()) {
        Ok(joined) => Ok(Back { came, joined }),
        Err(_) => Err(MasterFault::Stranger),
    }
}

/// What an answer shows; nothing where no copy came.
fn along_in(back: &Back) -> Along
    ensures { result ≡ along_in back.now }
{
    if back.came.a.is_some() || back.came.b.is_some() {
        Along {
            asked: back.joined.count(),
            out: first_out(&back.joined),
        }
    } else {
        Along {
            asked: 0,
            out: None,
        }
    }
}

/// Asks the slave of a line at a place, and those behind it, for their AL status (IEC 61158-6-12): so many of
/// them, and at most [`MOST_ASKED`], by one frame.
///
/// A trip that fails is `Port`, and a copy of another frame `Stranger`.
pub fn look_along<P: Ports>(
    ports: &mut P,
    line: &[Wanted],
    first: usize,
    most: usize,
) -> Result<Along, MasterFault>
    requires { first < length line.now }
    ensures along { IsAlong P.trips ports.old line.now first result ports.new }
    ensures never_lower { P.failed ports.old ≤ P.failed ports.new }
{
    let frame = states_read(line, first, most);
    match send(ports, &frame) {
        Ok(back) => Ok(along_in(&back)),
        Err(fault) => Err(fault),
    }
}
