//! Mailboxes that are seen empty.

ghost use Rattle.std.specs.Prelude.{◌≡◌, ◌≤◌, ◌<◌, Ok, Err, length};
ghost use Rattle.ec_wire.specs.Datagram.{record_of, nth};
ghost use Rattle.ec_services.specs.Course.{IsTold, IsStep, goes_on};
ghost use Rattle.ec_services.specs.Mailbox.{IsPeer, mail_read};
ghost use Rattle.ec_services.specs.Settling.{records_read, request_waits, answer_waits, mailboxes_by, looked};
ghost use Rattle.ec_services.specs.Settling.{settled, settling, IsSettled};
ghost use Rattle.ec_services.specs.declared.fault.MasterFault.TheVariants.{Port};

use crate::asking::{Back, ask, request};
use crate::fault::MasterFault;
use crate::mailbox::{Peer, mail_read};
use ec_master::Ports;
use ec_regs::registers::SYNC_MANAGER_BASE;
use ec_wire::{Command, Datagram, address_of};

/// What is known of a peer's two mailboxes.
#[derive(Clone, Copy, PartialEq, Eq, Debug)]
pub enum Mailboxes {
    /// Nothing, or that a request waits for the slave: they are looked at again.
    Unknown,
    /// A mail waits in the mailbox of answers.
    AnswerWaits,
    /// Both were empty at one time.
    Empty,
}

/// The bytes of the records of sync managers 0 and 1.
const RECORDS: usize = 16;

/// Where the status of sync manager 0, the mailbox of requests, stands in them.
const REQUEST_STATUS_AT: usize = 5;

/// Where the status of sync manager 1, the mailbox of answers, stands in them.
const ANSWER_STATUS_AT: usize = 13;

/// Where the bit stands that tells that a mailbox is full.
const FULL_AT: u8 = 3;

/// The read of both records.
fn records_read(peer: &Peer) -> Datagram
    ensures { record_of result ≡ records_read peer.now }
{
    let address = address_of(peer.station, SYNC_MANAGER_BASE);
    request(Command::Fprd, address, &[0; RECORDS])
}

/// Is the mailbox of requests full, by both records?
fn request_waits(records: &[u8]) -> bool
    requires { length records.now ≡ RECORDS }
    ensures { result ≡ request_waits records.now }
{
    records[REQUEST_STATUS_AT] >> FULL_AT & 1 == 1
}

/// Is the mailbox of answers full, by both records?
fn answer_waits(records: &[u8]) -> bool
    requires { length records.now ≡ RECORDS }
    ensures { result ≡ answer_waits records.now }
{
    records[ANSWER_STATUS_AT] >> FULL_AT & 1 == 1
}

/// What an answer tells of both mailboxes. One that did not count exactly 1 tells nothing: two copies may
/// have passed the slave at two times.
fn mailboxes_by(back: &Back) -> Mailboxes
    requires one { length back.now.joined ≡ 1 }
    requires size { length (nth back.now.joined 0).payload ≡ RECORDS }
    ensures { result ≡ mailboxes_by (Ok back.now) }
{
    if back.joined.counter(0) != 1 {
        return Mailboxes::Unknown;
    }
    let records = back.joined.data(0);
    if answer_waits(records) {
        return Mailboxes::AnswerWaits;
    }
    if request_waits(records) {
        return Mailboxes::Unknown;
    }
    Mailboxes::Empty
}

/// Looks at both mailboxes by one read.
pub(crate) fn look<P: Ports>(ports: &mut P, peer: &Peer) -> Result<Mailboxes, MasterFault>
    ensures told { IsTold P.trips ports.old (records_read peer.now) looked result ports.new }
    ensures counted { result ≡ Err Port → P.failed ports.old < P.failed ports.new }
    ensures never_lower { P.failed ports.old ≤ P.failed ports.new }
{
    Ok(mailboxes_by(&ask(ports, &records_read(peer))?))
}

/// Reads the mailbox of answers and drops what comes.
fn drop_mail<P: Ports>(ports: &mut P, peer: &Peer) -> Result<Option<()>, MasterFault>
    requires { IsPeer peer.now }
    ensures told { IsTold P.trips ports.old (mail_read peer.now) goes_on result ports.new }
    ensures counted { result ≡ Err Port → P.failed ports.old < P.failed ports.new }
    ensures never_lower { P.failed ports.old ≤ P.failed ports.new }
{
    let _dropped = ask(ports, &mail_read(peer))?;
    Ok(None)
}

/// Is it the end that this is known?
fn settled(known: Mailboxes) -> Option<()>
    ensures { result ≡ settled known }
{
    match known {
        Mailboxes::Empty => Some(()),
        _ => None,
    }
}

/// One trip, by what is known of the mailboxes.
fn settle_step<P: Ports>(
    ports: &mut P,
    peer: &Peer,
    known: &mut Mailboxes,
) -> Result<Option<()>, MasterFault>
    requires { IsPeer peer.now }
    ensures step { IsStep P.trips ports.old (settling peer.now) known.old result known.new ports.new }
    ensures counted { result ≡ Err Port → P.failed ports.old < P.failed ports.new }
    ensures never_lower { P.failed ports.old ≤ P.failed ports.new }
{
    let waits = *known == Mailboxes::AnswerWaits;
    *known = Mailboxes::Unknown;
    if waits {
        return drop_mail(ports, peer);
    }
    *known = look(ports, peer)?;
    Ok(settled(*known))
}

/// Waits until both mailboxes of a peer are empty (IEC 61158-4-12, sync manager, mailbox mode), with at most
/// `limit` trips: reads the records of sync managers 0 and 1 in one datagram, until an answer that counted
/// exactly 1 shows both empty. A mail that waits is read and dropped. It takes no memory.
///
/// A request that an earlier call left behind is then no more in the slave, nor is an answer to it, unless
/// the slave takes a request and puts its answer in two steps of its own. A read of the mailbox of answers
/// alone does not show that: where it counts 0, the copies that passed the slave may be lost.
///
/// A trip that fails is `Port`, and a copy of another frame `Stranger`. `NoAnswer`: in `limit` trips no such
/// answer came.
pub fn settle<P: Ports>(ports: &mut P, peer: &Peer, limit: u32) -> Result<(), MasterFault>
    requires { IsPeer peer.now }
    ensures service { IsSettled P.trips ports.old peer.now limit result ports.new }
    ensures counted { result ≡ Err Port → P.failed ports.old < P.failed ports.new }
    ensures never_lower { P.failed ports.old ≤ P.failed ports.new }
{
    let mut known = Mailboxes::Unknown;
    for _trip in 0..limit {
        match settle_step(ports, peer, &mut known)? {
            Some(()) => return Ok(()),
            None => {}
        }
    }
    Err(MasterFault::NoAnswer)
}
