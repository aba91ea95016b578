//! One question to the slaves: a datagram that goes out alone in a frame, and what comes back of it.

ghost use Rattle.std.specs.Prelude.{◌≡◌, ◌≤◌, ◌<◌, IfOk, Err, length};
ghost use Rattle.ec_wire.specs.Datagram.{record_of};
ghost use Rattle.ec_services.specs.Ask.{request, Asks, IsAsked, told_by, write, write_decides};
ghost use Rattle.ec_services.specs.Ask.{done};
ghost use Rattle.ec_services.specs.declared.fault.MasterFault.TheVariants.{Port};

use crate::fault::MasterFault;
use arrayvec::ArrayVec;
use ec_master::Ports;
use ec_merge::join_frames;
use ec_ring::Came;
use ec_wire::{Command, Datagram, FrameBuf, MAX_DATA};

/// What came back of a datagram that went out alone in a frame.
#[derive(Drop)]
pub struct Back {
    /// The copies, by the ports from which they were sent.
    pub came: Came,
    /// The frame of one datagram that they join to; that which was sent, where none came.
    pub joined: FrameBuf,
}

/// A datagram with these data, at most 1,486 bytes, its index and its working counter 0 (IEC 61158-4-12,
/// datagram structure).
pub fn request(command: Command, address: u32, payload: &[u8]) -> Datagram
    requires { length payload.now ≤ MAX_DATA }
    ensures { record_of result ≡ request command address payload.now }
{
    let mut bytes = ArrayVec::new();
    bytes.try_extend_from_slice(payload).unwrap();
    Datagram {
        command,
        index: 0,
        address,
        circulating: false,
        irq: 0,
        payload: bytes,
        counter: 0,
    }
}

/// Sends a datagram alone in a frame, and joins the copies that come back: a frame of one datagram of its
/// size. It is [`MasterFault::Port`] where the trip failed, and [`MasterFault::Stranger`] where a copy is
/// none of what was sent.
pub fn ask<P: Ports>(ports: &mut P, sent: &Datagram) -> Result<Back, MasterFault>
    ensures asks { Asks P.trips ports.old (record_of sent.now) result ports.new }
    ensures one { IfOk result (λ back. length back.joined ≡ 1) }
    ensures size { IfOk result (λ back. length (told_by back).payload ≡ length sent.now.payload.items) }
    ensures counted { result ≡ Err Port → P.failed ports.old < P.failed ports.new }
    ensures never_lower { P.failed ports.old ≤ P.failed ports.new }
{
    let frame = FrameBuf::of(sent);
    let came = match ports.trip(&frame) {
        Ok(came) => came,
        Err(_) => return Err(MasterFault::Port),
    };
    match join_frames(&frame, came.a.as_ref(), came.b.as_ref()) {
        Ok(joined) => Ok(Back { came, joined }),
        Err(_) => Err(MasterFault::Stranger),
    }
}

/// Was a write to one slave done?
pub(crate) fn written(back: &Back) -> Result<(), MasterFault>
    requires { length back.now.joined ≡ 1 }
    ensures { done result ≡ write_decides {A = Unit {0}} (Ok back.now) }
{
    match back.joined.counter(0) {
        0 => Err(MasterFault::NoSlave),
        1 => Ok(()),
        _ => Err(MasterFault::BadAnswer),
    }
}

/// Writes to one slave.
pub(crate) fn write<P: Ports>(ports: &mut P, sent: &Datagram) -> Result<(), MasterFault>
    ensures asked { IsAsked P.trips ports.old (write {A = Unit {0}} (record_of sent.now)) (done result)
        ports.new }
    ensures counted { result ≡ Err Port → P.failed ports.old < P.failed ports.new }
    ensures never_lower { P.failed ports.old ≤ P.failed ports.new }
{
    written(&ask(ports, sent)?)
}
