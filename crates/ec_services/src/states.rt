//! States of the application layer.

ghost use Rattle.std.specs.Prelude.{◌≡◌, ◌≤◌, ◌<◌, Ok, Err, length, replicate};
ghost use Rattle.ec_wire.specs.Datagram.{nth};
ghost use Rattle.ec_services.specs.Ask.{IsAsked, Talks, done, write};
ghost use Rattle.ec_services.specs.States.{control_write, status_decides, status_question, IsRequested};
ghost use Rattle.ec_services.specs.declared.fault.MasterFault.TheVariants.{NoAnswer, Port};

use crate::asking::{Back, ask, request, write};
use crate::fault::MasterFault;
use byteorder::{ByteOrder, LittleEndian};
use ec_master::Ports;
use ec_regs::registers::{AL_CONTROL, AL_STATUS};
use ec_regs::{AlState, AlStatus};
use ec_wire::{Command, address_of};

/// The bytes of AL status, two reserved bytes and the AL status code.
pub(crate) const STATUS_BYTES: usize = 6;

/// Where the AL status code stands in them.
const CODE_AT: usize = 4;

/// Asks a slave for a state of its application layer, and acknowledges an error that stands: writes both into
/// AL control (IEC 61158-6-12, AL management). Whether the slave comes to it says [`read_status`].
///
/// A trip that fails is `Port`, and a copy of another frame `Stranger`. `NoSlave`: the write came back with
/// the working counter 0; `BadAnswer`: with more than 1.
pub fn write_control<P: Ports>(
    ports: &mut P,
    station: u16,
    state: AlState,
) -> Result<(), MasterFault>
    ensures asked { IsAsked P.trips ports.old (write {A = Unit {0}} (control_write station state))
        (done result) ports.new }
    ensures counted { result ≡ Err Port → P.failed ports.old < P.failed ports.new }
    ensures never_lower { P.failed ports.old ≤ P.failed ports.new }
{
    let address = address_of(station, AL_CONTROL);
    let sent = request(Command::Fpwr, address, &[state.acknowledging_request(), 0]);
    write(ports, &sent)
}

/// What an answer decides for one who asked for a state.
fn status_decides(back: &Back, state: AlState) -> Result<Option<()>, MasterFault>
    requires one { length back.now.joined ≡ 1 }
    requires size { length (nth back.now.joined 0).payload ≡ STATUS_BYTES }
    ensures { result ≡ status_decides state (Ok back.now) }
{
    match back.joined.counter(0) {
        0 => return Err(MasterFault::NoSlave),
        1 => {}
        _ => return Err(MasterFault::BadAnswer),
    }
    let status = back.joined.data(0);
    if AlStatus::of_byte(status[0]).error {
        return Err(MasterFault::Refused(LittleEndian::read_u16(&status[CODE_AT..])));
    }
    if status[0] % 16 == state.code() {
        Ok(Some(()))
    } else {
        Ok(None)
    }
}

/// Reads the AL status of a slave that was asked for a state, once: `None` where it is in another one yet.
///
/// A trip that fails is `Port`, and a copy of another frame `Stranger`. `NoSlave`: the read came back with
/// the working counter 0; `BadAnswer`: with more than 1; `Refused`: the slave's error bit is set.
pub fn read_status<P: Ports>(
    ports: &mut P,
    station: u16,
    state: AlState,
) -> Result<Option<()>, MasterFault>
    ensures asked { IsAsked P.trips ports.old (status_question station state) result ports.new }
    ensures counted { result ≡ Err Port → P.failed ports.old < P.failed ports.new }
    ensures never_lower { P.failed ports.old ≤ P.failed ports.new }
{
    let address = address_of(station, AL_STATUS);
    let sent = request(Command::Fprd, address, &[0; STATUS_BYTES]);
    status_decides(&ask(ports, &sent)?, state)
}

/// Reads AL status at most `limit` times, until the slave is in the state or refuses it.
fn await_state<P: Ports>(
    ports: &mut P,
    station: u16,
    state: AlState,
    limit: u32,
) -> Result<(), MasterFault>
    ensures talk { Talks P.trips ports.old (replicate limit (status_question station state)) (Err NoAnswer)
        result ports.new }
    ensures counted { result ≡ Err Port → P.failed ports.old < P.failed ports.new }
    ensures never_lower { P.failed ports.old ≤ P.failed ports.new }
{
    for _read in 0..limit {
        match read_status(ports, station, state)? {
            Some(()) => return Ok(()),
            None => {}
        }
    }
    Err(MasterFault::NoAnswer)
}

/// Asks a slave for a state of its application layer (IEC 61158-6-12, AL management) and acknowledges an
/// error that stands; then reads AL status at most `limit` times, until the slave is in that state. It takes
/// no memory.
///
/// A trip that fails is `Port`, and a copy of another frame `Stranger`. `NoSlave`: the write or a read came
/// back with the working counter 0; `BadAnswer`: with more than 1; `Refused`: the slave's error bit is set;
/// `NoAnswer`: `limit` reads found the slave in another state.
pub fn request_state<P: Ports>(
    ports: &mut P,
    station: u16,
    state: AlState,
    limit: u32,
) -> Result<(), MasterFault>
    ensures service { IsRequested P.trips ports.old station state limit result ports.new }
    ensures counted { result ≡ Err Port → P.failed ports.old < P.failed ports.new }
    ensures never_lower { P.failed ports.old ≤ P.failed ports.new }
{
    write_control(ports, station, state)?;
    await_state(ports, station, state, limit)
}
