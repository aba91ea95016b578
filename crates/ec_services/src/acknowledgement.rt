//! Errors of the application layer, acknowledged.

ghost use Rattle.std.specs.Prelude.{◌≡◌, ◌≤◌, ◌<◌, Ok, Err, length, replicate};
ghost use Rattle.ec_wire.specs.Datagram.{nth};
ghost use Rattle.ec_services.specs.Ask.{Talks, IsAsked};
ghost use Rattle.ec_services.specs.Course.{IsTold};
ghost use Rattle.ec_services.specs.States.{status_read};
ghost use Rattle.ec_services.specs.Acknowledgement.{status_by, unless_error, error_question, IsAcknowledged};
ghost use Rattle.ec_services.specs.declared.fault.MasterFault.TheVariants.{NoAnswer, Port};

use crate::asking::{Back, ask, request};
use crate::fault::MasterFault;
use crate::states::{STATUS_BYTES, write_control};
use ec_master::Ports;
use ec_regs::registers::AL_STATUS;
use ec_regs::{AlState, AlStatus};
use ec_wire::{Command, address_of};

/// The AL status that an answer tells.
fn status_by(back: &Back) -> Result<AlStatus, MasterFault>
    requires one { length back.now.joined ≡ 1 }
    requires size { length (nth back.now.joined 0).payload ≡ STATUS_BYTES }
    ensures { result ≡ status_by (Ok back.now) }
{
    match back.joined.counter(0) {
        0 => Err(MasterFault::NoSlave),
        1 => Ok(AlStatus::of_byte(back.joined.data(0)[0])),
        _ => Err(MasterFault::BadAnswer),
    }
}

/// Reads the AL status of a slave, once (IEC 61158-6-12, AL management): the state that it is in, and whether
/// an error stands. It takes no memory.
///
/// A trip that fails is `Port`, and a copy of another frame `Stranger`. `NoSlave`: the read came back with
/// the working counter 0; `BadAnswer`: with more than 1.
pub fn read_al<P: Ports>(ports: &mut P, station: u16) -> Result<AlStatus, MasterFault>
    ensures told { IsTold P.trips ports.old (status_read station) status_by result ports.new }
    ensures counted { result ≡ Err Port → P.failed ports.old < P.failed ports.new }
    ensures never_lower { P.failed ports.old ≤ P.failed ports.new }
{
    let address = address_of(station, AL_STATUS);
    let sent = request(Command::Fprd, address, &[0; STATUS_BYTES]);
    status_by(&ask(ports, &sent)?)
}

/// The state of a slave without an error.
fn unless_error(status: AlStatus) -> Option<AlState>
    ensures { Ok result ≡ unless_error (Ok status) }
{
    if status.error {
        None
    } else {
        Some(status.state)
    }
}

/// Reads the AL status of a slave whose error is to be gone, once (IEC 61158-6-12, AL management): the state
/// that it is in, `None` where the error stands yet. It takes no memory.
///
/// A trip that fails is `Port`, and a copy of another frame `Stranger`. `NoSlave`: the read came back with
/// the working counter 0; `BadAnswer`: with more than 1.
pub fn read_error<P: Ports>(ports: &mut P, station: u16) -> Result<Option<AlState>, MasterFault>
    ensures asked { IsAsked P.trips ports.old (error_question station) result ports.new }
    ensures counted { result ≡ Err Port → P.failed ports.old < P.failed ports.new }
    ensures never_lower { P.failed ports.old ≤ P.failed ports.new }
{
    Ok(unless_error(read_al(ports, station)?))
}

/// Reads AL status at most `limit` times, until the error is gone.
fn await_no_error<P: Ports>(ports: &mut P, station: u16, limit: u32) -> Result<AlState, MasterFault>
    ensures talk { Talks P.trips ports.old (replicate limit (error_question station)) (Err NoAnswer)
        result ports.new }
    ensures counted { result ≡ Err Port → P.failed ports.old < P.failed ports.new }
    ensures never_lower { P.failed ports.old ≤ P.failed ports.new }
{
    for _read in 0..limit {
        match read_error(ports, station)? {
            Some(state) => return Ok(state),
            None => {}
        }
    }
    Err(MasterFault::NoAnswer)
}

/// Acknowledges an error of a slave's application layer (IEC 61158-6-12, AL management): reads AL status,
/// asks for the state that the slave is in with the acknowledgement, then reads AL status at most `limit`
/// times, until the error bit is gone, and answers the state that the slave is in. It takes no memory.
///
/// A slave without an error is asked for its state all the same, so that a request that it has not served yet
/// is served no more. Before `request_state` this keeps a refusal of an earlier request from being taken for
/// one of the next.
///
/// A trip that fails is `Port`, and a copy of another frame `Stranger`. `NoSlave`: the write or a read came
/// back with the working counter 0; `BadAnswer`: with more than 1; `NoAnswer`: `limit` reads found the error
/// bit set.
pub fn acknowledge<P: Ports>(
    ports: &mut P,
    station: u16,
    limit: u32,
) -> Result<AlState, MasterFault>
    ensures service { IsAcknowledged P.trips ports.old station limit result ports.new }
    ensures counted { result ≡ Err Port → P.failed ports.old < P.failed ports.new }
    ensures never_lower { P.failed ports.old ≤ P.failed ports.new }
{
    let status = read_al(ports, station)?;
    write_control(ports, station, status.state)?;
    await_no_error(ports, station, limit)
}
