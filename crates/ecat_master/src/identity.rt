//! Who the slaves of a line are to be (IEC 61158-6-12, object dictionary, identity object).

ghost use Rattle.std.specs.Prelude.{◌≡◌, ◌≤◌, ◌↔◌, IsTrue, Ok, length};
ghost use Rattle.ec_services.specs.Mailbox.{IsPeer};
ghost use Rattle.ecat_master.specs.Identities.{AreEntriesCompared, AreIdentitiesCompared};
ghost use Rattle.ecat_master.specs.Identities.{IsEntryCompared, IsIdentityCompared, entry_at};

use crate::words::put_fault;
use ec_app::Value;
use ec_app::roles::{ANSWER_MAILBOX, REQUEST_MAILBOX};
use ec_master::Ports;
use ec_ring::MAX_SLAVES;
use ec_run::{Wanted, peer_between};
use ec_services::{MasterFault, Peer, upload_surely};
use ecat_text::Lines;
use std::io::{self, Write};

/// The object that says who a slave is.
pub const IDENTITY: u16 = 0x1018;

/// How many entries of that object there are to compare: vendor, product, revision and serial number.
pub const ENTRIES: usize = 4;

/// The most trips by which an entry is read.
const ENTRY_TRIPS: u32 = 64;

/// What the entries 1 to 4 of a slave's identity are to be; `None` where each will do.
pub type Identity = [Option<Value>; ENTRIES];

/// A slave that is not the one that it is to be.
#[derive(Clone, Copy, PartialEq, Eq, Debug)]
pub struct OtherSlave {
    /// Its place on the line, the first one's being 0.
    pub place: u16,
    /// Its station address.
    pub station: u16,
    /// The entry of its identity that differs, 1 to 4.
    pub entry: u8,
    /// What that was to be.
    pub wanted: Value,
    /// What it is, or why it could not be read.
    pub found: Result<Value, MasterFault>,
}

/// Reads the identity of each slave of which one is wanted and that has mailboxes, in Pre-Op or above; the
/// first entry that differs is the answer. `identities` are by the places of the slaves, at most 256.
pub(crate) fn compare_identities<P: Ports>(
    ports: &mut P,
    line: &[Wanted],
    identities: &[Identity],
) -> Result<(), OtherSlave>
    requires { length line.now ≤ MAX_SLAVES }
    ensures { AreIdentitiesCompared P.trips ports.old 0 line.now identities.now result ports.new }
{
    for (place, wanted) in line.iter().enumerate() {
        let identity = match identities.get(place) {
            Some(identity) => identity,
            None => return Ok(()),
        };
        match compare_identity(ports, place as u16, wanted, identity) {
            Ok(()) => {}
            Err(other) => return Err(other),
        }
    }
    Ok(())
}

/// Reads the identity of one slave, as far as it is wanted; of one without mailboxes nothing.
fn compare_identity<P: Ports>(
    ports: &mut P,
    place: u16,
    slave: &Wanted,
    identity: &Identity,
) -> Result<(), OtherSlave>
    ensures { IsIdentityCompared P.trips ports.old place slave.now identity.now result ports.new }
{
    let requests = &slave.managers[REQUEST_MAILBOX];
    let answers = &slave.managers[ANSWER_MAILBOX];
    match peer_between(slave.station, requests, answers, 1) {
        Some(peer) => compare_entries(ports, place, slave.station, peer, identity),
        None => Ok(()),
    }
}

/// Reads the entries of a slave's identity of which a value is wanted, in their order, until one differs.
fn compare_entries<P: Ports>(
    ports: &mut P,
    place: u16,
    station: u16,
    mut peer: Peer,
    identity: &Identity,
) -> Result<(), OtherSlave>
    requires { IsPeer peer }
    ensures { AreEntriesCompared P.trips ports.old (entry_at place station 1) peer identity.now result
        ports.new }
{
    for number in 0..ENTRIES {
        let entry = number as u8 + 1;
        match compare_entry(ports, place, station, &mut peer, entry, identity[number]) {
            Ok(()) => {}
            Err(other) => return Err(other),
        }
    }
    Ok(())
}

/// Is what was found of an entry what is wanted?
fn is_wanted(found: Result<Value, MasterFault>, wanted: Value) -> bool
    ensures { IsTrue result ↔ (found ≡ Ok wanted) }
{
    found == Ok(wanted)
}

/// Reads an entry of a slave's identity, unless any value will do.
fn compare_entry<P: Ports>(
    ports: &mut P,
    place: u16,
    station: u16,
    peer: &mut Peer,
    entry: u8,
    wanted: Option<Value>,
) -> Result<(), OtherSlave>
    requires { IsPeer peer.old }
    ensures compared { IsEntryCompared P.trips ports.old (entry_at place station entry) peer.old wanted result
        peer.new ports.new }
    ensures still_peer { IsPeer peer.new }
{
    let wanted = match wanted {
        Some(wanted) => wanted,
        None => return Ok(()),
    };
    let found = upload_surely(ports, peer, IDENTITY, entry, ENTRY_TRIPS);
    if is_wanted(found, wanted) {
        return Ok(());
    }
    Err(OtherSlave {
        place,
        station,
        entry,
        wanted,
        found,
    })
}

/// Puts that a slave is another one than it is to be.
pub(crate) fn put_other_slave<W: Write>(
    other: &OtherSlave,
    lines: &mut Lines<'_, W>,
) -> io::Result<()> {
    let entry = other.entry;
    lines.slave(usize::from(other.place), other.station)?;
    lines.text(format_args!(": object 0x1018:{entry} is "))?;
    match other.found {
        Ok(value) => put_value(value, lines)?,
        Err(fault) => put_fault(fault, lines)?,
    }
    lines.text(", wanted ")?;
    put_value(other.wanted, lines)
}

/// Puts a value, as hexadecimal digits.
pub(crate) fn put_value<W: Write>(value: Value, lines: &mut Lines<'_, W>) -> io::Result<()> {
    match value {
        Value::One(value) => lines.text(format_args!("0x{value:02x}")),
        Value::Two(value) => lines.text(format_args!("0x{value:04x}")),
        Value::Four(value) => lines.text(format_args!("0x{value:08x}")),
    }
}
