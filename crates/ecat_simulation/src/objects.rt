//! `ecat sdo`: one object of a slave, read or written by mail.

ghost use Rattle.std.specs.Prelude.{◌≡◌, IfSome};
ghost use Rattle.ec_services.specs.Mailbox.{IsPeer};

use ec_app::roles::{ANSWER_MAILBOX, REQUEST_MAILBOX};
use ec_app::{AbortCode, Slave, Value};
use ec_master::{Ports, RingPorts};
use ec_regs::AlState;
use ec_run::{Seen, look_for, peer_between};
use ec_services::{MasterFault, Peer, download_surely, sdo_download, sdo_upload, upload_surely};
use ecat_scene::Scene;
use ecat_setup::{LineFailure, SteppingPorts, ring_of, slaves_of, weathers_of};
use ecat_text::{FaultText, Lines, REFUSED, TripsText, print_line, print_read, print_written};
use std::alloc::Global;
use std::io::{self, Write};

/// The most reads of the mailbox of answers.
const LIMIT: u32 = 8;

/// The most trips of a transfer that is done surely.
const TRIPS: u32 = 64;

/// What the command asks of an object.
#[derive(Clone, Copy)]
pub struct Asked {
    /// The station address of its slave.
    pub station: u16,
    /// Its index.
    pub index: u16,
    /// Its subindex.
    pub sub: u8,
    /// What to write; without it the object is read.
    pub value: Option<Value>,
    /// Whether trips are made until it is done, whatever copies are lost.
    pub surely: bool,
}

/// Reads or writes an object of a slave of the scene, over its ring, and prints the value, `written`, or what
/// is in the way. The actions and items of the scene are passed over, and so are its weathers, unless it is
/// done surely: each trip is under the next of them then, and `err` is told how many trips there were.
#[inline(never)]
pub fn sdo<W, V>(
    alloc: Global,
    asked: &Asked,
    scene: Scene,
    out: &mut W,
    err: &mut V,
) -> Result<u8, LineFailure>
where
    W: Write,
    V: Write,
{
    let mut lines = Lines::new(out);
    if asked.surely {
        return sdo_surely(alloc, asked, scene, &mut lines, err);
    }
    let ring = ring_of(alloc, scene.slaves, scene.links_down.as_slice())?;
    let status = match peer_at(ring.slaves(), asked.station) {
        None => print_line(FaultText(MasterFault::NoSlave), REFUSED, &mut lines)?,
        Some(peer) => transfer(&mut RingPorts::new(ring), peer, asked).print(&mut lines)?,
    };
    Ok(status)
}

/// Reads or writes an object of a slave of a line somewhere else, over these ports, as `sdo` does; the scene
/// says where the slave's mailboxes are. Why there is no answer is told `err` for a person, as far as it is
/// known.
pub fn sdo_far<P: Ports, W: Write, V: Write>(
    alloc: Global,
    asked: &Asked,
    ports: &mut P,
    scene: Scene,
    out: &mut W,
    err: &mut V,
) -> Result<u8, LineFailure> {
    let line = slaves_of(alloc, scene.slaves)?;
    let mut lines = Lines::new(out);
    let Some(peer) = peer_at(line.as_slice(), asked.station) else {
        let status = print_line(FaultText(MasterFault::NoSlave), REFUSED, &mut lines)?;
        return Ok(status);
    };
    let told = if asked.surely {
        transfer_surely(ports, peer, asked)
    } else {
        transfer(ports, peer, asked)
    };
    let status = told.print(&mut lines)?;
    if let Some(fault) = told.fault() {
        explain(ports, asked.station, fault, err);
    }
    Ok(status)
}

/// Tells a person why a slave did not do what was asked, as far as the fault or one look at the slave says
/// it. A fault of `err` is passed over.
fn explain<P: Ports, V: Write>(ports: &mut P, station: u16, fault: MasterFault, err: &mut V) {
    match fault {
        MasterFault::Abort(code) => {
            if let Some(reason) = AbortCode::from_code(code) {
                let reason = reason.name();
                let _ = writeln!(err, "0x{code:08x}: {reason}");
            }
        }
        MasterFault::NoSlave | MasterFault::NoAnswer => match look_for(ports, station) {
            Ok(Seen::In(AlState::Init)) | Ok(Seen::Error(AlState::Init, _)) => {
                let _ = writeln!(
                    err,
                    "slave 0x{station:04x} is in Init, where it takes no mail; Pre-Op is wanted"
                );
            }
            Ok(Seen::Nobody) => {
                let _ = writeln!(err, "no slave answers at station 0x{station:04x}");
            }
            _ => {}
        },
        _ => {}
    }
}

/// Reads or writes the object surely, in the weathers of the scene, prints what came of it, and tells `err`
/// how many trips there were. All memory is taken before anything is printed.
fn sdo_surely<W: Write, V: Write>(
    alloc: Global,
    asked: &Asked,
    scene: Scene,
    lines: &mut Lines<'_, W>,
    err: &mut V,
) -> Result<u8, LineFailure> {
    let weathers = weathers_of(alloc, scene.weathers.as_slice())?;
    let ring = ring_of(alloc, scene.slaves, scene.links_down.as_slice())?;
    let peer = peer_at(ring.slaves(), asked.station);
    let mut ports = SteppingPorts::new(ring, weathers.as_slice());
    let status = match peer {
        None => print_line(FaultText(MasterFault::NoSlave), REFUSED, lines)?,
        Some(peer) => transfer_surely(&mut ports, peer, asked).print(lines)?,
    };
    let trips = TripsText(ports.made());
    let _ = writeln!(err, "{trips}");
    Ok(status)
}

/// A slave as one with which mails are exchanged, if it has both mailboxes.
fn peer_of(slave: &Slave, station: u16) -> Option<Peer>
    ensures { IfSome result IsPeer }
{
    let requests = slave.controller().syncman(REQUEST_MAILBOX);
    let answers = slave.controller().syncman(ANSWER_MAILBOX);
    peer_between(station, &requests, &answers, 1)
}

/// The first slave with a station address, if it has both mailboxes.
fn peer_at(line: &[Slave], station: u16) -> Option<Peer>
    ensures { IfSome result IsPeer }
{
    for slave in line {
        if slave.controller().station() == station {
            return peer_of(slave, station);
        }
    }
    None
}

/// What came of an object that was asked for.
#[derive(Clone, Copy)]
enum Told {
    /// Of one that was read.
    Read(Result<Value, MasterFault>),
    /// Of one that was written.
    Written(Result<(), MasterFault>),
}

impl Told {
    /// Prints it, and answers the exit status.
    fn print<W: Write>(self, lines: &mut Lines<'_, W>) -> io::Result<u8> {
        match self {
            Told::Read(read) => print_read(read, lines),
            Told::Written(written) => print_written(written, lines),
        }
    }

    /// Why it was not done, where it was not.
    fn fault(self) -> Option<MasterFault> {
        match self {
            Told::Read(Err(fault)) | Told::Written(Err(fault)) => Some(fault),
            _ => None,
        }
    }
}

/// Reads or writes the object over ports.
fn transfer<P: Ports>(ports: &mut P, mut peer: Peer, asked: &Asked) -> Told
    requires { IsPeer peer }
{
    let Asked { index, sub, .. } = *asked;
    match asked.value {
        None => Told::Read(sdo_upload(ports, &mut peer, index, sub, LIMIT)),
        Some(value) => { Told::Written(sdo_download(ports, &mut peer, index, sub, value, LIMIT)) }
    }
}

/// Reads or writes the object, whatever copies are lost.
fn transfer_surely<P: Ports>(ports: &mut P, mut peer: Peer, asked: &Asked) -> Told
    requires { IsPeer peer }
{
    let Asked { index, sub, .. } = *asked;
    match asked.value {
        None => Told::Read(upload_surely(ports, &mut peer, index, sub, TRIPS)),
        Some(value) => {
            Told::Written(download_surely(ports, &mut peer, index, sub, value, TRIPS))
        }
    }
}
