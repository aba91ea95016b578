//! Neighbouring bytes of a controller's memory, as datagrams address them and sync managers guard them
//! (IEC 61158-4-12, physical memory access and sync manager).

ghost use Rattle.std.specs.Prelude.{◌≡◌, ◌+◌};
ghost use Rattle.ec_regs.specs.AddressRange.{within, share_a_byte, lies_within};

/// The bytes from an address on. A range may reach past the memory, or have no byte.
#[derive(Clone, Copy, PartialEq, Eq, Debug)]
pub struct AddressRange {
    /// The address of the first byte.
    pub first: u16,
    /// How many bytes there are.
    pub count: u16,
}

impl AddressRange {
    /// The address behind the last byte.
    fn end(&self) -> u32
        ensures { result ≡ self.now.first + self.now.count }
    {
        u32::from(self.first) + u32::from(self.count)
    }

    /// Is the byte at an address in the range?
    pub fn contains(&self, address: u32) -> bool
        ensures { result ≡ within self.now.first self.now.count address }
    {
        u32::from(self.first) <= address && address < self.end()
    }

    /// Do two ranges that have bytes share one?
    pub fn meets(&self, other: &AddressRange) -> bool
        ensures { result ≡ share_a_byte self.now.first self.now.count other.now.first other.now.count }
    {
        u32::from(self.first) < other.end() && u32::from(other.first) < self.end()
    }

    /// Does the range hold all bytes of the other one?
    pub fn holds(&self, other: &AddressRange) -> bool
        ensures { result ≡ lies_within self.now.first self.now.count other.now.first other.now.count }
    {
        self.first <= other.first && other.end() <= self.end()
    }
}
