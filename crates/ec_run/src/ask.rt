//! One question to the slaves: a datagram that goes out alone in a frame, and what its copies join to.

ghost use Rattle.std.specs.Prelude.{◌≡◌, ◌≤◌, ◌<◌, ◌||◌, IfOk, Err, is_some, length};
ghost use Rattle.ec_wire.specs.Datagram.{nth, record_of};
ghost use Rattle.ec_services.specs.declared.fault.MasterFault.TheVariants.{Port};
ghost use Rattle.ec_run.specs.Ask.{IsPut, IsReplied, one_counted, one_or_two, held_by};

use ec_master::Ports;
use ec_ring::Came;
use ec_services::MasterFault;
use ec_wire::{Datagram, FrameBuf};

/// What came back of a datagram that went out alone in a frame.
#[derive(Drop)]
pub(crate) struct Reply {
    /// The frame of one datagram that the copies join to; that which was sent, where none came.
    pub(crate) joined: FrameBuf,
    /// Whether a copy came: where none did, nothing is known of the slaves.
    pub(crate) heard: bool,
}

/// Did a copy come?
fn is_heard(came: &Came) -> bool
    ensures { result ≡ (is_some came.now.a || is_some came.now.b) }
{
    came.a.is_some() || came.b.is_some()
}

/// Sends a datagram alone in a frame, and answers what came back: a frame of one datagram of its size.
pub(crate) fn ask<P: Ports>(ports: &mut P, sent: &Datagram) -> Result<Reply, MasterFault>
    ensures replied { IsReplied P.trips ports.old (record_of sent.now) result ports.new }
    ensures one { IfOk result (λ reply. length reply.joined ≡ 1) }
    ensures size { IfOk result
        (λ reply. length (nth reply.joined 0).payload ≡ length sent.now.payload.items) }
    ensures counted { result ≡ Err Port → P.failed ports.old < P.failed ports.new }
    ensures never_lower { P.failed ports.old ≤ P.failed ports.new }
{
    match ec_services::ask(ports, sent) {
        Ok(back) => {
            let heard = is_heard(&back.came);
            Ok(Reply {
                joined: back.joined,
                heard,
            })
        }
        Err(fault) => Err(fault),
    }
}

/// Sends a datagram alone in a frame, and answers what its copies join to: a frame of one datagram of its
/// size.
pub fn put<P: Ports>(ports: &mut P, sent: &Datagram) -> Result<FrameBuf, MasterFault>
    ensures put { IsPut P.trips ports.old (record_of sent.now) result ports.new }
    ensures one { IfOk result (λ joined. length joined ≡ 1) }
    ensures size { IfOk result
        (λ joined. length (nth joined 0).payload ≡ length sent.now.payload.items) }
    ensures counted { result ≡ Err Port → P.failed ports.old < P.failed ports.new }
    ensures never_lower { P.failed ports.old ≤ P.failed ports.new }
{
    match ask(ports, sent) {
        Ok(reply) => Ok(reply.joined),
        Err(fault) => Err(fault),
    }
}

/// Did exactly one slave count on an answer?
pub fn one_counted(answer: &Result<FrameBuf, MasterFault>) -> Result<(), MasterFault>
    requires { IfOk answer.now (λ joined. length joined ≡ 1) }
    ensures { result ≡ one_counted answer.now }
{
    let joined = match answer {
        Ok(joined) => joined,
        Err(fault) => return Err(*fault),
    };
    match joined.counter(0) {
        0 => Err(MasterFault::NoSlave),
        1 => Ok(()),
        _ => Err(MasterFault::BadAnswer),
    }
}

/// Did one slave count on an answer, or two?
pub(crate) fn one_or_two(answer: &Result<FrameBuf, MasterFault>) -> Result<(), MasterFault>
    requires { IfOk answer.now (λ joined. length joined ≡ 1) }
    ensures { result ≡ one_or_two answer.now }
{
    let joined = match answer {
        Ok(joined) => joined,
        Err(fault) => return Err(*fault),
    };
    match joined.counter(0) {
        0 => Err(MasterFault::NoSlave),
        1 | 2 => Ok(()),
        _ => Err(MasterFault::BadAnswer),
    }
}

/// Did exactly one slave count on an answer, and has it these bytes?
pub(crate) fn held_by(
    bytes: &[u8],
    answer: &Result<FrameBuf, MasterFault>,
) -> Result<(), MasterFault>
    requires { IfOk answer.now (λ joined. length joined ≡ 1) }
    ensures { result ≡ held_by bytes.now answer.now }
{
    let joined = match answer {
        Ok(joined) => joined,
        Err(fault) => return Err(*fault),
    };
    match joined.counter(0) {
        0 => return Err(MasterFault::NoSlave),
        1 => {}
        _ => return Err(MasterFault::BadAnswer),
    }
    if joined.data(0) == bytes {
        Ok(())
    } else {
        Err(MasterFault::BadAnswer)
    }
}
