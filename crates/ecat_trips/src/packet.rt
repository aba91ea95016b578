//! What trips look at of a packet beside its frame.

ghost use Rattle.std.specs.Prelude.{◌≡◌, true};
ghost use Rattle.ecat_trips.specs.Packet.{base_of, is_marked};

/// Bit 1 of the first byte of an Ethernet address, in the address as a number of 48 bits.
const MARK: u64 = 0x0200_0000_0000;

/// Where a frame comes from by its Ethernet header. The first slave that processes a frame sets bit 1 of the
/// first byte of its source address (IEC 61158-4-12, frames over Ethernet): the mark.
#[derive(Clone, Copy, Debug, PartialEq, Eq)]
pub struct Source {
    /// The address without the mark, as a number of 48 bits whose highest byte is the first.
    pub base: u64,
    /// Is the mark set?
    pub marked: bool,
}

impl Source {
    /// The source of an address, given as a number of 48 bits whose highest byte is the first.
    pub fn of(address: u64) -> Source
        ensures base { result.base ≡ base_of address }
        ensures marked { result.marked ≡ is_marked address }
    {
        let marked = address / MARK % 2 == 1;
        let base = if marked { address - MARK } else { address };
        Source { base, marked }
    }
}

/// The ports of a UDP packet.
#[derive(Clone, Copy, Debug, PartialEq, Eq)]
pub struct Ports {
    /// The source port.
    pub from: u16,
    /// The destination port.
    pub to: u16,
}

/// A packet with a frame, but for the frame.
#[derive(Clone, Copy, Debug, PartialEq, Eq)]
pub struct Outline {
    /// Its number in the capture.
    pub number: u64,
    /// When it was captured, in nanoseconds since the epoch, where the capture tells it.
    pub time: Option<u64>,
    /// The number of the interface that captured it; 0 where the capture has one interface alone.
    pub interface: u32,
    /// Where it comes from.
    pub source: Source,
    /// Its UDP ports; `None` of a frame that lies in the Ethernet frame itself.
    pub ports: Option<Ports>,
}
