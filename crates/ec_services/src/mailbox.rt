//! Mails to a slave and back.

ghost use Rattle.std.specs.Prelude.{◌≡◌, ◌≤◌, ◌<◌, Err, IfOk, IfSome, length, replicate};
ghost use Rattle.ec_wire.specs.Datagram.{record_of};
ghost use Rattle.ec_app.specs.declared.mail.Mail.{Mail};
ghost use Rattle.ec_services.specs.Ask.{IsAsked, Talks, done, write_decides};
ghost use Rattle.ec_services.specs.Mailbox.{IsPeer, mail_write, next_counter, with_counted, IsPosted};
ghost use Rattle.ec_services.specs.Mailbox.{mail_read};
ghost use Rattle.ec_services.specs.Mailbox.{mail_decides, mail_question, Fetches};
ghost use Rattle.ec_services.specs.declared.fault.MasterFault.TheVariants.{NoAnswer, Port};

use crate::asking::{Back, ask, request, written};
use crate::fault::MasterFault;
use ec_app::mail::{MAIL_SIZE, REQUEST};
use ec_app::{Mail, Sdo};
use ec_master::Ports;
use ec_regs::LONGEST_MAILBOX;
use ec_wire::{Command, Datagram, FrameBuf, address_of};

/// Room for the area of a mailbox.
const ROOM: usize = LONGEST_MAILBOX as usize;

/// The area of a mailbox in a slave's memory (IEC 61158-4-12, sync manager).
#[derive(Clone, Copy, PartialEq, Eq, Debug)]
pub struct Area {
    /// The first address of the area.
    pub start: u16,
    /// How many bytes it has, 16 to 1,486.
    pub length: u16,
}

/// A slave with which mails are exchanged.
#[derive(Clone, Copy, PartialEq, Eq, Debug)]
pub struct Peer {
    /// The station address of the slave.
    pub station: u16,
    /// The slave's mailbox of requests, which the master writes.
    pub to: Area,
    /// The slave's mailbox of answers, which the master reads.
    pub from: Area,
    /// The counter of the next request, 1 to 7.
    pub counter: u8,
}

/// The counter after this one: counters run from 1 to 7.
fn next_counter(counter: u8) -> u8
    requires { counter ≤ 7 }
    ensures { result ≡ next_counter counter }
{
    if counter == 7 { 1 } else { counter + 1 }
}

impl Peer {
    ghost use Rattle.ec_services.specs.Mailbox.{skipped};

    /// Moves the counter on by one in its cycle from 1 to 7, as a write does that was counted. For a request
    /// whose write came to no certain end: the slave takes a request with the counter of its last for that
    /// one again.
    pub fn skip(&mut self)
        requires { self.old.counter ≤ 7 }
        ensures skipped { self.new ≡ skipped self.old }
        ensures still_peer { IsPeer self.old → IsPeer self.new }
    {
        self.counter = next_counter(self.counter);
    }
}

/// The mail of a request as it is written: zeros after it fill the mailbox.
pub(crate) fn mail_write(peer: &Peer, sdo: &Sdo) -> Datagram
    requires { IsPeer peer.now }
    ensures { record_of result ≡ mail_write peer.now sdo.now }
{
    let mail = Mail {
        address: 0,
        channel: 0,
        priority: 0,
        counter: peer.counter,
        number: 0,
        service: REQUEST,
        sdo: *sdo,
    };
    let mut area = [0; ROOM];
    area[..MAIL_SIZE].copy_from_slice(&mail.write());
    let address = address_of(peer.station, peer.to.start);
    request(Command::Fpwr, address, &area[..usize::from(peer.to.length)])
}

/// Moves the peer's counter where the request came back with the working counter 1.
fn count_request(peer: &mut Peer, back: &Back) -> Result<(), MasterFault>
    requires one { length back.now.joined ≡ 1 }
    requires counter { peer.old.counter ≤ 7 }
    ensures counted { peer.new ≡ with_counted peer.old (Ok back.now) }
    ensures written { done result ≡ write_decides {A = Mail} (Ok back.now) }
{
    written(back)?;
    peer.counter = next_counter(peer.counter);
    Ok(())
}

/// Writes a request into the mailbox of a peer.
pub(crate) fn post<P: Ports>(ports: &mut P, peer: &mut Peer, sdo: &Sdo) -> Result<(), MasterFault>
    requires { IsPeer peer.old }
    ensures posted { IsPosted P.trips ports.old peer.old sdo.now (done result) peer.new ports.new }
    ensures counted { result ≡ Err Port → P.failed ports.old < P.failed ports.new }
    ensures never_lower { P.failed ports.old ≤ P.failed ports.new }
{
    let back = ask(ports, &mail_write(peer, sdo))?;
    count_request(peer, &back)
}

/// The read of the mailbox of answers, whole.
pub(crate) fn mail_read(peer: &Peer) -> Datagram
    requires { IsPeer peer.now }
    ensures { record_of result ≡ mail_read peer.now }
{
    let area = [0; ROOM];
    let address = address_of(peer.station, peer.from.start);
    request(
        Command::Fprd,
        address,
        &area[..usize::from(peer.from.length)],
    )
}

/// What a read of the mailbox of answers decides.
fn mail_decides(back: Back) -> Result<Option<FrameBuf>, MasterFault>
    requires { length back.joined ≡ 1 }
    ensures decides { result ≡ mail_decides (Ok back) }
    ensures one { IfOk result (λ found. IfSome found (λ frame. length frame ≡ 1)) }
{
    match back.joined.counter(0) {
        0 => Ok(None),
        1 => Ok(Some(back.joined)),
        _ => Err(MasterFault::BadAnswer),
    }
}

/// Reads the mailbox of answers.
fn read_mail<P: Ports>(ports: &mut P, peer: &Peer) -> Result<Option<FrameBuf>, MasterFault>
    requires { IsPeer peer.now }
    ensures asked { IsAsked P.trips ports.old (mail_question peer.now) result ports.new }
    ensures one { IfOk result (λ found. IfSome found (λ frame. length frame ≡ 1)) }
    ensures counted { result ≡ Err Port → P.failed ports.old < P.failed ports.new }
    ensures never_lower { P.failed ports.old ≤ P.failed ports.new }
{
    mail_decides(ask(ports, &mail_read(peer))?)
}

/// Reads the mailbox of answers at most `limit` times, until a mail is there.
pub(crate) fn fetch<P: Ports>(
    ports: &mut P,
    peer: &Peer,
    limit: u32,
) -> Result<FrameBuf, MasterFault>
    requires { IsPeer peer.now }
    ensures fetches { Fetches P.trips ports.old peer.now limit result ports.new }
    ensures one { IfOk result (λ frame. length frame ≡ 1) }
    ensures counted { result ≡ Err Port → P.failed ports.old < P.failed ports.new }
    ensures never_lower { P.failed ports.old ≤ P.failed ports.new }
{
    for _read in 0..limit {
        match read_mail(ports, peer)? {
            Some(frame) => return Ok(frame),
            None => {}
        }
    }
    Err(MasterFault::NoAnswer)
}
