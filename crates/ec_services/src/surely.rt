//! Objects of a slave, read and written whatever is lost on the way.

ghost use Rattle.std.specs.Prelude.{◌≡◌, ◌≤◌, ◌<◌, Ok, Err, length};
ghost use Rattle.ec_app.specs.declared.sdo.Sdo.TheVariants.{Upload, Download};
ghost use Rattle.ec_services.specs.Course.{IsStep, Runs};
ghost use Rattle.ec_services.specs.Mailbox.{IsPeer};
ghost use Rattle.ec_services.specs.Surely.{answer_to, answered, begun, asking, GoesOn, IsSure};
ghost use Rattle.ec_services.specs.Transfer.{uploaded_by, downloaded_by, uploading, downloading};
ghost use Rattle.ec_services.specs.declared.fault.MasterFault.TheVariants.{Port};

use crate::asking::{Back, ask};
use crate::fault::MasterFault;
use crate::mailbox::{Peer, mail_read, mail_write};
use crate::settling::{Mailboxes, look};
use crate::transfer::{answer_in, downloaded_by, uploaded_by};
use ec_app::{Mail, Sdo, Value};
use ec_master::Ports;

/// How far a transfer is that is made a trip at a time ([`upload_on`], [`download_on`]).
#[derive(Clone, Copy)]
pub struct Progress {
    /// What is known of the peer's mailboxes.
    pub known: Mailboxes,
    /// The counter of the request that was posted last, where one was.
    pub posted: Option<u8>,
    /// The peer, with the counter of the next request.
    pub peer: Peer,
}

/// The mail that answers the request with the counter that was posted last.
fn answer_to(bytes: &[u8], posted: Option<u8>, asked: &Sdo) -> Option<Mail>
    ensures { result ≡ answer_to posted asked.now bytes.now }
{
    match posted {
        Some(counter) => answer_in(bytes, counter, asked).ok(),
        None => None,
    }
}

/// The answer that a read of the mailbox of answers brings. A read that did not count exactly 1 brings none.
fn answered(back: &Back, posted: Option<u8>, asked: &Sdo) -> Option<Mail>
    requires { length back.now.joined ≡ 1 }
    ensures { Ok result ≡ answered posted asked.now (Ok back.now) }
{
    if back.joined.counter(0) == 1 {
        answer_to(back.joined.data(0), posted, asked)
    } else {
        None
    }
}

impl Progress {
    /// A transfer that has made no trip.
    pub fn begun(peer: &Peer) -> Progress
        ensures { result ≡ begun peer.now }
    {
        Progress {
            known: Mailboxes::Unknown,
            posted: None,
            peer: *peer,
        }
    }
}

/// Looks at both mailboxes.
fn look_again<P: Ports>(
    ports: &mut P,
    progress: &mut Progress,
    asked: &Sdo,
) -> Result<Option<Mail>, MasterFault>
    requires known { progress.old.known ≡ Mailboxes.Unknown }
    ensures step { IsStep P.trips ports.old (asking asked.now) progress.old result progress.new ports.new }
    ensures peer { progress.new.peer ≡ progress.old.peer }
    ensures counted { result ≡ Err Port → P.failed ports.old < P.failed ports.new }
    ensures never_lower { P.failed ports.old ≤ P.failed ports.new }
{
    progress.known = look(ports, &progress.peer)?;
    Ok(None)
}

/// Reads the mail that waits, which may be the answer.
fn take_answer<P: Ports>(
    ports: &mut P,
    progress: &mut Progress,
    asked: &Sdo,
) -> Result<Option<Mail>, MasterFault>
    requires known { progress.old.known ≡ Mailboxes.AnswerWaits }
    requires peer { IsPeer progress.old.peer }
    ensures step { IsStep P.trips ports.old (asking asked.now) progress.old result progress.new ports.new }
    ensures peer { progress.new.peer ≡ progress.old.peer }
    ensures counted { result ≡ Err Port → P.failed ports.old < P.failed ports.new }
    ensures never_lower { P.failed ports.old ≤ P.failed ports.new }
{
    progress.known = Mailboxes::Unknown;
    let back = ask(ports, &mail_read(&progress.peer))?;
    Ok(answered(&back, progress.posted, asked))
}

/// Posts the request, and moves the counter on whatever comes back: the slave may have taken it.
fn post_again<P: Ports>(
    ports: &mut P,
    progress: &mut Progress,
    asked: &Sdo,
) -> Result<Option<Mail>, MasterFault>
    requires known { progress.old.known ≡ Mailboxes.Empty }
    requires peer { IsPeer progress.old.peer }
    ensures step { IsStep P.trips ports.old (asking asked.now) progress.old result progress.new ports.new }
    ensures peer { IsPeer progress.new.peer }
    ensures counted { result ≡ Err Port → P.failed ports.old < P.failed ports.new }
    ensures never_lower { P.failed ports.old ≤ P.failed ports.new }
{
    let sent = mail_write(&progress.peer, asked);
    progress.known = Mailboxes::Unknown;
    progress.posted = Some(progress.peer.counter);
    progress.peer.skip();
    let _back = ask(ports, &sent)?;
    Ok(None)
}

/// One trip, by what is known of the mailboxes.
fn trip<P: Ports>(
    ports: &mut P,
    progress: &mut Progress,
    asked: &Sdo,
) -> Result<Option<Mail>, MasterFault>
    requires { IsPeer progress.old.peer }
    ensures step { IsStep P.trips ports.old (asking asked.now) progress.old result progress.new ports.new }
    ensures peer { IsPeer progress.new.peer }
    ensures counted { result ≡ Err Port → P.failed ports.old < P.failed ports.new }
    ensures never_lower { P.failed ports.old ≤ P.failed ports.new }
{
    match progress.known {
        Mailboxes::Unknown => look_again(ports, progress, asked),
        Mailboxes::AnswerWaits => take_answer(ports, progress, asked),
        Mailboxes::Empty => post_again(ports, progress, asked),
    }
}

/// Makes at most so many trips, until a mail answers the last request.
fn run<P: Ports>(
    ports: &mut P,
    progress: &mut Progress,
    asked: &Sdo,
    trips: u32,
) -> Result<Mail, MasterFault>
    requires { IsPeer progress.old.peer }
    ensures runs { Runs P.trips ports.old (asking asked.now) progress.old trips result progress.new
        ports.new }
    ensures peer { IsPeer progress.new.peer }
    ensures counted { result ≡ Err Port → P.failed ports.old < P.failed ports.new }
    ensures never_lower { P.failed ports.old ≤ P.failed ports.new }
{
    for _trip in 0..trips {
        match trip(ports, progress, asked)? {
            Some(mail) => return Ok(mail),
            None => {}
        }
    }
    Err(MasterFault::NoAnswer)
}

/// Reads an object of a slave (IEC 61158-6-12, SDO upload, expedited) with at most so many trips, whatever
/// copies are lost or pass the slave twice, and whatever earlier calls left behind: on `Ok` the object held
/// the value at some time during the call. It takes no memory.
///
/// A trip reads the records of both mailboxes in one datagram; or where a mail waits, reads it; or where one
/// answer that counted exactly 1 showed both empty, posts the request. A mail that does not answer the
/// request that this call posted last is dropped. Four trips are enough where nothing is lost and the slave
/// answers at once. The peer's counter moves on with each post, whatever comes back.
///
/// A trip that fails is `Port`, and a copy of another frame `Stranger`. `Abort`: the slave ended the
/// transfer; `BadAnswer`: the slave's answer to this request is of another kind; `NoAnswer`: in so many trips
/// no answer came.
///
/// The contract says which frames go out and what each answer decides. That the value is the object's rests
/// besides on a slave that takes a request and puts its answer in one step, and on no copy that comes late.
pub fn upload_surely<P: Ports>(
    ports: &mut P,
    peer: &mut Peer,
    index: u16,
    sub: u8,
    trips: u32,
) -> Result<Value, MasterFault>
    requires { IsPeer peer.old }
    ensures service { IsSure P.trips ports.old peer.old (uploading index sub) trips result peer.new
        ports.new }
    ensures still_peer { IsPeer peer.new }
    ensures counted { result ≡ Err Port → P.failed ports.old < P.failed ports.new }
    ensures never_lower { P.failed ports.old ≤ P.failed ports.new }
{
    let mut progress = Progress::begun(peer);
    let answer = run(ports, &mut progress, &Sdo::Upload { index, sub }, trips);
    *peer = progress.peer;
    uploaded_by(&answer?)
}

/// Writes an object of a slave (IEC 61158-6-12, SDO download, expedited) with at most so many trips, whatever
/// copies are lost or pass the slave twice, and whatever earlier calls left behind: on `Ok` the slave has
/// stored the value in this call, at least once; on `Abort` this call has never stored it. It takes no
/// memory.
///
/// After `NoAnswer`, `Port` or `Stranger` a request may still be stored later; the next such call waits until
/// the slave has taken it. Its trips and its other faults are those of `upload_surely`.
pub fn download_surely<P: Ports>(
    ports: &mut P,
    peer: &mut Peer,
    index: u16,
    sub: u8,
    value: Value,
    trips: u32,
) -> Result<(), MasterFault>
    requires { IsPeer peer.old }
    ensures service { IsSure P.trips ports.old peer.old (downloading index sub value) trips result
        peer.new ports.new }
    ensures still_peer { IsPeer peer.new }
    ensures counted { result ≡ Err Port → P.failed ports.old < P.failed ports.new }
    ensures never_lower { P.failed ports.old ≤ P.failed ports.new }
{
    let mut progress = Progress::begun(peer);
    let asked = Sdo::Download { index, sub, value };
    let answer = run(ports, &mut progress, &asked, trips);
    *peer = progress.peer;
    downloaded_by(&answer?)
}

/// Makes one trip more of a transfer by which an object of a slave is read (`upload_surely`): `Some` once its
/// value came, `None` where no mail has answered yet, say since nothing but the records of the mailboxes was
/// read. So a master may read an object beside its cycles, a trip behind each. It takes no memory.
///
/// The faults are those of `upload_surely`, but for `NoAnswer`: how many trips are made is the caller's.
pub fn upload_on<P: Ports>(
    ports: &mut P,
    progress: &mut Progress,
    index: u16,
    sub: u8,
) -> Result<Option<Value>, MasterFault>
    requires { IsPeer progress.old.peer }
    ensures goes_on { GoesOn P.trips ports.old (uploading index sub) progress.old result progress.new
        ports.new }
    ensures still_peer { IsPeer progress.new.peer }
    ensures counted { result ≡ Err Port → P.failed ports.old < P.failed ports.new }
    ensures never_lower { P.failed ports.old ≤ P.failed ports.new }
{
    let Some(mail) = trip(ports, progress, &Sdo::Upload { index, sub })? else {
        return Ok(None);
    };
    let value = uploaded_by(&mail)?;
    Ok(Some(value))
}

/// Makes one trip more of a transfer by which an object of a slave is written (`download_surely`): `Some`
/// once the slave has stored the value, `None` where no mail has answered yet, say since nothing but the
/// records of the mailboxes was read. So a master may write an object beside its cycles, a trip behind each.
/// It takes no memory.
///
/// The faults are those of `download_surely`, but for `NoAnswer`: how many trips are made is the caller's. A
/// transfer that is given up may still be stored later, as there.
pub fn download_on<P: Ports>(
    ports: &mut P,
    progress: &mut Progress,
    index: u16,
    sub: u8,
    value: Value,
) -> Result<Option<()>, MasterFault>
    requires { IsPeer progress.old.peer }
    ensures goes_on { GoesOn P.trips ports.old (downloading index sub value) progress.old result progress.new
        ports.new }
    ensures still_peer { IsPeer progress.new.peer }
    ensures counted { result ≡ Err Port → P.failed ports.old < P.failed ports.new }
    ensures never_lower { P.failed ports.old ≤ P.failed ports.new }
{
    let asked = Sdo::Download { index, sub, value };
    let Some(mail) = trip(ports, progress, &asked)? else {
        return Ok(None);
    };
    downloaded_by(&mail)?;
    Ok(Some(()))
}
