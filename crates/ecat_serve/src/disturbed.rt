//! Copies that leave an end late, twice or damaged, as somebody asked who tries a master against it.

ghost use Rattle.std.specs.Prelude.{◌≡◌, ◌≤◌, ◌<◌, IfSome, length};
ghost use Rattle.ecat_serve.specs.Disturbing.{damaged, disturbed_by, disturbing, fate_of, undisturbed};
ghost use Rattle.ecat_serve.specs.Ends.{any_receive, any_send};
ghost use Rattle.ec_wire.specs.declared.frame.TheConstants.{MAX_FRAME};

use crate::cables::Cable;
use crate::ends::{Arrived, Console, Ends, TimedEnds, Waited};
use crate::lines::{InputLine, LINE_ROOM};
use arrayvec::ArrayVec;
use ec_ring::{Port, PortFault};
use ec_wire::{MAX_FRAME, PACKET_ROOM};
use std::alloc::{AllocError, Global};
use std::net::SocketAddr;
use std::time::Duration;

/// How many copies may wait to leave late; one more leaves at once.
pub const MOST_WAITING: usize = 256;

/// How many microseconds a millisecond has.
const MICROS: u64 = 1000;

/// What befalls copies that leave an end.
#[derive(Clone, Copy, PartialEq, Eq, Debug)]
pub enum Disturbance {
    /// They leave so many milliseconds later.
    Late(u32),
    /// They leave twice, one behind the other.
    Double,
    /// They leave with the lowest bit of their first byte turned, so that none is a frame.
    Damage,
}

/// Ends whose copies can be disturbed.
pub trait Disturb {
    /// Has something befall so many more of the next copies that leave an end.
    fn disturb(&mut self, at: Port, disturbance: Disturbance, count: u32);
}

/// What tells by how much a copy is late.
pub trait Times {
    /// The microseconds since it began.
    fn now(&mut self) -> u64;
}

/// How many of the next copies that leave an end something befalls.
#[derive(Clone, Copy, PartialEq, Eq, Debug)]
pub struct Disturbances {
    /// How many leave late.
    pub late: u32,
    /// By how many milliseconds.
    pub milliseconds: u32,
    /// How many leave twice.
    pub double: u32,
    /// How many leave damaged.
    pub damage: u32,
}

/// What befalls one copy.
#[derive(Clone, Copy, PartialEq, Eq, Debug)]
pub struct Fate {
    /// By how many milliseconds it leaves late, if it does.
    pub late: Option<u32>,
    /// Whether it leaves twice.
    pub twice: bool,
    /// Whether it leaves damaged.
    pub is_damaged: bool,
}

impl Disturbances {
    /// Nothing befalls the next copies.
    pub fn none() -> Disturbances
        ensures { result ≡ undisturbed }
    {
        Disturbances {
            late: 0,
            milliseconds: 0,
            double: 0,
            damage: 0,
        }
    }

    /// Has something befall so many more copies; what is late is so by what was said last. A count that would
    /// be past the greatest number is that number.
    pub fn add(&mut self, disturbance: Disturbance, count: u32)
        ensures { self.new ≡ disturbed_by disturbance count self.old }
    {
        match disturbance {
            Disturbance::Late(milliseconds) => {
                self.late = self.late.saturating_add(count);
                self.milliseconds = milliseconds;
            }
            Disturbance::Double => self.double = self.double.saturating_add(count),
            Disturbance::Damage => self.damage = self.damage.saturating_add(count),
        }
    }

    /// What befalls the next copy, which is then one fewer of each kind that there is.
    pub fn take(&mut self) -> Fate
        ensures fate { result ≡ fate_of self.old }
        ensures left { self.new ≡ disturbing self.old }
    {
        let fate = Fate {
            late: if self.late == 0 {
                None
            } else {
                Some(self.milliseconds)
            },
            twice: self.double != 0,
            is_damaged: self.damage != 0,
        };
        self.late = self.late.saturating_sub(1);
        self.double = self.double.saturating_sub(1);
        self.damage = self.damage.saturating_sub(1);
        fate
    }
}

/// A packet with the lowest bit of its first byte turned: of the length in the frame's header (IEC
/// 61158-4-12, the EtherCAT frame header), which then says one byte more or one less than there is.
fn damaged(packet: &[u8]) -> ArrayVec<u8, MAX_FRAME>
    requires { length packet.now ≤ MAX_FRAME }
    ensures { result.items ≡ damaged packet.now }
{
    let mut bytes = ArrayVec::new();
    if !packet.is_empty() {
        bytes.push(packet[0] ^ 1);
        bytes.try_extend_from_slice(&packet[1..]).unwrap();
    }
    bytes
}

/// A copy that leaves late.
#[derive(Drop)]
struct LateCopy {
    due: u64,
    from: Port,
    to: SocketAddr,
    bytes: ArrayVec<u8, MAX_FRAME>,
}

/// Ends whose copies leave late, twice or damaged where somebody asked for it, else at once. Those that are
/// late leave in the order in which they are due, while a receive waits; at most `MOST_WAITING` of them wait,
/// and one more leaves at once. What has not left when the service ends never does.
#[derive(Drop)]
pub struct Disturbed<'e, E, T> {
    ends: &'e mut E,
    times: T,
    a: Disturbances,
    b: Disturbances,
    waiting: Vec<LateCopy>,
}

impl<'e, E: TimedEnds, T: Times + Drop> Disturbed<'e, E, T> {
    /// Ends at which nothing befalls a copy yet.
    pub fn new(
        alloc: Global,
        ends: &'e mut E,
        times: T,
    ) -> Result<Disturbed<'e, E, T>, AllocError> {
        let mut waiting = Vec::new(alloc);
        waiting.reserve(MOST_WAITING)?;
        Ok(Disturbed {
            ends,
            times,
            a: Disturbances::none(),
            b: Disturbances::none(),
            waiting,
        })
    }

    /// What befalls the next copy that leaves an end.
    fn fate(&mut self, at: Port) -> Fate {
        match at {
            Port::A => self.a.take(),
            Port::B => self.b.take(),
        }
    }

    /// Sends a copy, now or so many milliseconds later.
    fn leave(
        &mut self,
        late: Option<u32>,
        from: Port,
        to: SocketAddr,
        packet: &[u8],
    ) -> Result<(), PortFault> {
        if let Some(milliseconds) = late
            && self.wait(milliseconds, from, to, packet)
        {
            return Ok(());
        }
        self.ends.send(from, to, packet)
    }

    /// Has a copy wait for so many milliseconds, unless there is no room.
    fn wait(&mut self, milliseconds: u32, from: Port, to: SocketAddr, packet: &[u8]) -> bool {
        let mut bytes = ArrayVec::new();
        if self.waiting.len() >= MOST_WAITING || bytes.try_extend_from_slice(packet).is_err() {
            return false;
        }
        let after = u64::from(milliseconds) * MICROS;
        let due = self.times.now().saturating_add(after);
        self.waiting
            .push(LateCopy {
                due,
                from,
                to,
                bytes,
            })
            .is_ok()
    }

    /// Sends what is due by now, and says how long the next one waits, if one does.
    fn send_due(&mut self) -> Result<Option<Duration>, PortFault> {
        for _copy in 0..=MOST_WAITING {
            let Some(next) = earliest(&self.waiting) else {
                return Ok(None);
            };
            let now = self.times.now();
            let due = self.waiting[next].due;
            if now < due {
                return Ok(Some(Duration::from_micros(due - now)));
            }
            let copy = self.waiting.remove(next);
            self.ends.send(copy.from, copy.to, copy.bytes.as_slice())?;
        }
        Ok(None)
    }
}

/// The place of the copy that is due first; of those that are due at once, of the one that waits longest.
fn earliest(waiting: &[LateCopy]) -> Option<usize>
    ensures { IfSome result (λ place. place < length waiting.now) }
{
    if waiting.is_empty() {
        return None;
    }
    let mut first = 0;
    for place in 1..waiting.len() {
        if waiting[place].due < waiting[first].due {
            first = place;
        }
    }
    Some(first)
}

impl<E: TimedEnds, T: Times + Drop> Ends for Disturbed<'_, E, T> {
    ghost receives = { any_receive };

    ghost sends = { any_send };

    fn receive(&mut self, into: &mut [u8; PACKET_ROOM]) -> Result<Option<Arrived>, PortFault> {
        for _turn in 0..u64::MAX {
            let Some(limit) = self.send_due()? else {
                return self.ends.receive(into);
            };
            match self.ends.receive_within(into, limit)? {
                Waited::Arrived(arrived) => return Ok(Some(arrived)),
                Waited::Ended => return Ok(None),
                Waited::Silent => {}
            }
        }
        Ok(None)
    }

    fn send(&mut self, from: Port, to: SocketAddr, bytes: &[u8]) -> Result<(), PortFault> {
        let fate = self.fate(from);
        if !fate.is_damaged {
            return self.send_as(fate, from, to, bytes);
        }
        let front = &bytes[..bytes.len().min(MAX_FRAME)];
        self.send_as(fate, from, to, damaged(front).as_slice())
    }
}

impl<E: TimedEnds, T: Times + Drop> Disturbed<'_, E, T> {
    /// Sends a copy once or twice, now or late.
    fn send_as(
        &mut self,
        fate: Fate,
        from: Port,
        to: SocketAddr,
        packet: &[u8],
    ) -> Result<(), PortFault> {
        if fate.twice {
            self.leave(fate.late, from, to, packet)?;
        }
        self.leave(fate.late, from, to, packet)
    }
}

impl<E: Console, T> Console for Disturbed<'_, E, T> {
    fn take_line(&mut self, into: &mut [u8; LINE_ROOM]) -> Option<InputLine> {
        self.ends.take_line(into)
    }

    fn take_cable(&mut self) -> Option<Cable> {
        self.ends.take_cable()
    }
}

impl<E, T> Disturb for Disturbed<'_, E, T> {
    fn disturb(&mut self, at: Port, disturbance: Disturbance, count: u32) {
        match at {
            Port::A => self.a.add(disturbance, count),
            Port::B => self.b.add(disturbance, count),
        }
    }
}
