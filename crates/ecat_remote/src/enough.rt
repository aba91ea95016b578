//! When nothing is gained by waiting on.

ghost use Rattle.std.specs.Prelude.{◌≡◌, ◌↔◌, ◌&&◌, ◌+◌, ℕ, true, map, length};
ghost use Rattle.std.specs.Option.{is_some};
ghost use Rattle.ec_wire.specs.Datagram.{DatagramRecord};
ghost use Rattle.ec_number.specs.Number.{opened};
ghost use Rattle.ecat_remote.specs.Enough.{IsEnough, have_come, have_come_at, awaits};

use crate::copies::NumberedCopy;
use ec_wire::FrameBuf;

/// What came at both ports.
#[derive(Drop)]
pub(crate) struct Both {
    /// The copy that came at port A.
    pub(crate) a: Option<NumberedCopy>,
    /// The one that came at port B.
    pub(crate) b: Option<NumberedCopy>,
}

/// Whether both copies came.
pub(crate) fn have_come(both: &Both) -> bool
    ensures { result ≡ have_come both.now }
{
    both.a.is_some() && both.b.is_some()
}

/// At which ports a copy is awaited.
#[derive(Clone, Copy)]
pub(crate) struct Awaited {
    pub(crate) a: bool,
    pub(crate) b: bool,
}

/// Whether each copy came that is awaited.
pub(crate) fn have_come_at(both: &Both, awaited: Awaited) -> bool
    ensures { result ≡ have_come_at (awaits awaited) both.now }
{
    (!awaited.a || both.a.is_some()) && (!awaited.b || both.b.is_some())
}

/// Whether one copy came alone, and each of its counters is the one that is expected. No counters are
/// expected where there are none.
pub(crate) fn is_enough(both: &Both, expected: &[u16]) -> bool
    ensures { (result ≡ true) ↔ IsEnough expected.now both.now }
{
    match &both.a {
        Some(a) => both.b.is_none() && has_counters(&a.frame, expected),
        None => match &both.b {
            Some(b) => has_counters(&b.frame, expected),
            None => false,
        },
    }
}

/// Whether these are the counters of a numbered frame's datagrams in their order, that of its number not
/// among them.
fn has_counters(frame: &FrameBuf, expected: &[u16]) -> bool
    ensures { (result ≡ true) ↔ (map (λ (d : DatagramRecord). d.counter) (opened frame.now) ≡ expected.now) }
{
    if frame.count() - 1 != expected.len() {
        return false;
    }
    for (k, counter) in expected.iter().enumerate() {
        if frame.counter(k) != *counter {
            return false;
        }
    }
    true
}
