//! Objects of a slave, read and written by mail.

ghost use Rattle.std.specs.Prelude.{◌≡◌, ◌≤◌, ◌<◌, Err, length};
ghost use Rattle.ec_app.specs.declared.sdo.Sdo.TheVariants.{Upload, Download};
ghost use Rattle.ec_services.specs.Transfer.{answers, answer_in, uploaded_by, downloaded_by, uploading};
ghost use Rattle.ec_services.specs.Transfer.{downloading};
ghost use Rattle.ec_services.specs.Transfer.{IsExchanged, IsTransferred};
ghost use Rattle.ec_services.specs.declared.fault.MasterFault.TheVariants.{Port};
ghost use Rattle.ec_services.specs.Mailbox.{IsPeer};

use crate::fault::MasterFault;
use crate::mailbox::{Peer, fetch, post};
use ec_app::mail::{RESPONSE, fields_of_mail};
use ec_app::{Mail, Sdo, Value};
use ec_master::Ports;

/// Does a mail answer a request: has it its counter, its index and its subindex?
fn answers(mail: &Mail, counter: u8, asked: &Sdo) -> bool
    ensures { result ≡ answers counter asked.now mail.now }
{
    mail.counter == counter && mail.sdo.index() == asked.index() && mail.sdo.sub() == asked.sub()
}

/// The mail that answers a request, in bytes that were read.
pub(crate) fn answer_in(bytes: &[u8], counter: u8, asked: &Sdo) -> Result<Mail, MasterFault>
    ensures { result ≡ answer_in counter asked.now bytes.now }
{
    fields_of_mail();
    match Mail::read(bytes) {
        Ok(mail) if answers(&mail, counter, asked) => Ok(mail),
        _ => Err(MasterFault::BadAnswer),
    }
}

/// What an answer to an upload comes to.
pub(crate) fn uploaded_by(mail: &Mail) -> Result<Value, MasterFault>
    ensures { result ≡ uploaded_by mail.now }
{
    match mail.sdo {
        Sdo::UploadAnswer { value, .. } if mail.service == RESPONSE => Ok(value),
        Sdo::Abort { code, .. } => Err(MasterFault::Abort(code)),
        _ => Err(MasterFault::BadAnswer),
    }
}

/// What an answer to a download comes to.
pub(crate) fn downloaded_by(mail: &Mail) -> Result<(), MasterFault>
    ensures { result ≡ downloaded_by mail.now }
{
    match mail.sdo {
        Sdo::DownloadAnswer { .. } if mail.service == RESPONSE => Ok(()),
        Sdo::Abort { code, .. } => Err(MasterFault::Abort(code)),
        _ => Err(MasterFault::BadAnswer),
    }
}

/// Writes a request into a peer's mailbox and fetches the answer, with at most `limit` reads.
fn exchange<P: Ports>(
    ports: &mut P,
    peer: &mut Peer,
    asked: &Sdo,
    limit: u32,
) -> Result<Mail, MasterFault>
    requires { IsPeer peer.old }
    ensures exchanged { IsExchanged P.trips ports.old peer.old asked.now limit result peer.new ports.new }
    ensures counted { result ≡ Err Port → P.failed ports.old < P.failed ports.new }
    ensures never_lower { P.failed ports.old ≤ P.failed ports.new }
{
    let before = *peer;
    post(ports, peer, asked)?;
    let frame = fetch(ports, &before, limit)?;
    answer_in(frame.data(0), before.counter, asked)
}

/// Reads an object of a slave (IEC 61158-6-12, SDO upload, expedited): writes the request into the peer's
/// mailbox, then reads its other mailbox at most `limit` times, until a mail is there. It takes no memory.
/// The peer's counter moves on exactly where the write of the request came back with the working counter 1.
///
/// A trip that fails is `Port`, and a copy of another frame `Stranger`. `NoSlave`: the request came back
/// with the working counter 0, as where the mailbox is full; `Abort`: the slave ended the transfer;
/// `NoAnswer`: `limit` reads found no mail; `BadAnswer`: the request or a read came back with a working
/// counter above 1, or the mail is no answer to this request.
///
/// Nothing but its counter, its index and its subindex tells an answer from that to an earlier request, so
/// that `Ok` may bring what was answered before. An answer that comes after `limit` reads stays in the
/// slave's mailbox, where the next transfer finds it. A request that a slave took although its copies were
/// lost leaves the counter, so that the slave takes the next one for the same again. `upload_surely` recovers
/// from both.
pub fn sdo_upload<P: Ports>(
    ports: &mut P,
    peer: &mut Peer,
    index: u16,
    sub: u8,
    limit: u32,
) -> Result<Value, MasterFault>
    requires { IsPeer peer.old }
    ensures service { IsTransferred P.trips ports.old peer.old (uploading index sub) limit
        result peer.new ports.new }
    ensures counted { result ≡ Err Port → P.failed ports.old < P.failed ports.new }
    ensures never_lower { P.failed ports.old ≤ P.failed ports.new }
{
    let mail = exchange(ports, peer, &Sdo::Upload { index, sub }, limit)?;
    uploaded_by(&mail)
}

/// Writes an object of a slave (IEC 61158-6-12, SDO download, expedited), in the way of `sdo_upload` and with
/// its faults.
///
/// `Ok` does not promise that the object holds the value: where a slave took the request before although its
/// copies were lost, it takes this one for that again and stores nothing, and the answer may be the one to
/// the request before. `download_surely` is for that.
pub fn sdo_download<P: Ports>(
    ports: &mut P,
    peer: &mut Peer,
    index: u16,
    sub: u8,
    value: Value,
    limit: u32,
) -> Result<(), MasterFault>
    requires { IsPeer peer.old }
    ensures service { IsTransferred P.trips ports.old peer.old (downloading index sub value) limit
        result peer.new ports.new }
    ensures counted { result ≡ Err Port → P.failed ports.old < P.failed ports.new }
    ensures never_lower { P.failed ports.old ≤ P.failed ports.new }
{
    let mail = exchange(ports, peer, &Sdo::Download { index, sub, value }, limit)?;
    downloaded_by(&mail)
}
