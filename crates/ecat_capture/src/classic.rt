//! The header and the records of a classic capture (the savefile format of libpcap).
ghost use Rattle.std.specs.Prelude.{◌≡◌, ◌≤◌, IfErr, None, OnOk, Some, length};
ghost use Rattle.ecat_capture.specs.Classic.{format_of, header_fault, linked, record_of};
ghost use Rattle.ecat_capture.specs.Progress.{IsRefusal};

use crate::fault::CaptureFaultKind;
use crate::link::Link;
use crate::order::Order;
use crate::packet::{Found, Time};

/// The length of a header.
pub(crate) const HEADER_LEN: usize = 24;

/// The length of a record's head.
pub(crate) const HEAD_LEN: usize = 16;

/// The version of the format.
const VERSION: (u16, u16) = (2, 4);

/// A kind of classic capture.
#[derive(Clone, Copy)]
pub(crate) struct Format {
    /// The order of its numbers.
    pub order: Order,
    /// Does it count nanoseconds, or microseconds?
    pub nanoseconds: bool,
    /// What its packets begin with.
    pub link: Link,
}

/// The kind of classic capture that begins with these four bytes, lowest first: of Ethernet, as long as its
/// header does not say it.
#[tactic(auto, unfolding(crate::specs::Classic::format_of))]
pub(crate) fn format_of(magic: u32) -> Option<Format>
    ensures { result ≡ format_of magic }
{
    let (order, nanoseconds) = match magic {
        0xa1b2_c3d4 => (Order::Little, false),
        0xa1b2_3c4d => (Order::Little, true),
        0xd4c3_b2a1 => (Order::Big, false),
        0x4d3c_b2a1 => (Order::Big, true),
        _ => return None,
    };
    Some(Format {
        order,
        nanoseconds,
        link: Link::Ethernet,
    })
}

impl Format {
    /// This kind of capture with the link type that its header tells, if it is known.
    pub(crate) fn linked(self, header: &[u8]) -> Format
        requires { length header.now ≡ HEADER_LEN }
        ensures { result ≡ linked self header.now }
    {
        match Link::of(self.order.word(header, 20)) {
            Some(link) => Format { link, ..self },
            None => self,
        }
    }
}

/// Says whether 24 bytes are a header of this kind.
#[tactic(auto, unfolding(crate::specs::Classic::header_fault))]
pub(crate) fn check_header(format: Format, header: &[u8]) -> Result<(), CaptureFaultKind>
    requires { length header.now ≡ HEADER_LEN }
    ensures ok { OnOk result (header_fault format header.now ≡ None) }
    ensures err { IfErr result (λ kind. header_fault format header.now ≡ Some kind) }
    ensures refusal { IfErr result IsRefusal }
{
    let order = format.order;
    if order.half(header, 4) != VERSION.0 || order.half(header, 6) != VERSION.1 {
        return Err(CaptureFaultKind::Version);
    }
    if Link::of(order.word(header, 20)).is_none() {
        return Err(CaptureFaultKind::LinkType);
    }
    Ok(())
}

/// What the head of a record says of its packet.
#[tactic(auto, unfolding(crate::specs::Classic::record_of))]
pub(crate) fn record_of(format: Format, bytes: &[u8]) -> Found
    requires { HEAD_LEN ≤ length bytes.now }
    ensures { result ≡ record_of format bytes.now }
{
    let order = format.order;
    let per_second: u64 = if format.nanoseconds {
        1_000_000_000
    } else {
        1_000_000
    };
    let ticks = u64::from(order.word(bytes, 0)) * per_second + u64::from(order.word(bytes, 4));
    Found {
        time: Some(Time::of(per_second, ticks)),
        captured: order.word(bytes, 8),
        original: order.word(bytes, 12),
        from: HEAD_LEN,
        interface: 0,
        link: format.link,
    }
}
