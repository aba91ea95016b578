//! The record of a fieldbus memory management unit (FMMU), which maps a run of logical bits onto physical
//! ones (IEC 61158-4-12, FMMU entity).

ghost use Rattle.std.specs.Prelude.{⊤, ◌≡◌, ◌↔◌, ◌^◌, ◌<◌, ℕ, [], ◌∷◌, codes};

use bitflags::{Flag, Flags, bitflag_items};
use byteorder::{ByteOrder, LittleEndian};

/// The type byte of an FMMU: what the master does through it (IEC 61158-4-12, FMMU entity).
#[derive(Clone, Copy, PartialEq, Eq, Debug)]
pub struct FmmuType(u8);

bitflag_items! {
    impl FmmuType: u8 {
        /// The master reads through the FMMU.
        const READ = 0x01;
        /// The master writes through the FMMU.
        const WRITE = 0x02;
    }
}

impl Flags for FmmuType {
    type Bits = u8;

    ghost exact = { ⊤ };

    ghost table = { (codes "READ", 0x01) ∷ (codes "WRITE", 0x02) ∷ [] };

    ghost set_of = { λ flags. flags.0 };

    fn flags<'a>() -> &'a [Flag<FmmuType>] {
        FmmuType::FLAGS
    }

    fn bits(&self) -> u8 {
        self.0
    }

    fn from_bits_retain(bits: u8) -> FmmuType {
        FmmuType(bits)
    }
}

/// Bit 0 of the activate byte: the FMMU maps.
pub const ACTIVE: u8 = 0x01;

/// The greatest number of a bit in a byte.
pub const LAST_BIT: u8 = 7;

// Where the fields stand in the record, in bytes.
const LOGICAL_AT: usize = 0;

const LENGTH_AT: usize = 4;

const START_AT: usize = 6;

const STOP_AT: usize = 7;

const PHYSICAL_AT: usize = 8;

const BIT_AT: usize = 10;

const KIND_AT: usize = 11;

const ACTIVATE_AT: usize = 12;

const RESERVED_AT: usize = 13;

/// One FMMU record, field by field; every 16 bytes are exactly one record.
#[derive(Clone, Copy, Debug, PartialEq, Eq)]
pub struct Fmmu {
    /// The first logical byte address.
    pub logical: u32,
    /// How many logical bytes the mapped bits touch.
    pub length: u16,
    /// The first mapped bit in the first logical byte, 0 to 7 where the FMMU maps.
    pub start: u8,
    /// The last mapped bit in the last logical byte, 0 to 7 where the FMMU maps.
    pub stop: u8,
    /// The first physical byte address.
    pub physical: u16,
    /// The bit of the first physical byte that the first mapped bit stands for, 0 to 7 where the FMMU maps.
    pub bit: u8,
    /// The type, the bits of an `FmmuType`.
    pub kind: u8,
    /// Bit 0 (`ACTIVE`) tells whether the FMMU maps.
    pub activate: u8,
    /// Kept as they are, without effect.
    pub reserved: [u8; 3],
}

impl Fmmu {
    /// An active one that lays `length` whole bytes, from `physical` on, at the logical byte `logical`.
    fn whole_bytes(logical: u32, length: u16, physical: u16, kind: u8) -> Fmmu
        ensures { result ≡ record {
          logical = logical;
          length = length;
          start = 0;
          stop = 7;
          physical = physical;
          bit = 0;
          kind = kind;
          activate = 1;
          reserved = 0 ∷ 0 ∷ 0 ∷ [];
        } }
    {
        Fmmu {
            logical,
            length,
            start: 0,
            stop: LAST_BIT,
            physical,
            bit: 0,
            kind,
            activate: ACTIVE,
            reserved: [0; 3],
        }
    }

    /// An active one through which the master reads `length` whole bytes, from `physical` on, at the logical
    /// byte `logical`.
    pub fn reading(logical: u32, length: u16, physical: u16) -> Fmmu
        ensures { result ≡ record {
          logical = logical;
          length = length;
          start = 0;
          stop = 7;
          physical = physical;
          bit = 0;
          kind = 1;
          activate = 1;
          reserved = 0 ∷ 0 ∷ 0 ∷ [];
        } }
    {
        Fmmu::whole_bytes(logical, length, physical, FmmuType::READ.0)
    }

    /// An active one through which the master writes `length` whole bytes, from `physical` on, at the logical
    /// byte `logical`.
    pub fn writing(logical: u32, length: u16, physical: u16) -> Fmmu
        ensures { result ≡ record {
          logical = logical;
          length = length;
          start = 0;
          stop = 7;
          physical = physical;
          bit = 0;
          kind = 2;
          activate = 1;
          reserved = 0 ∷ 0 ∷ 0 ∷ [];
        } }
    {
        Fmmu::whole_bytes(logical, length, physical, FmmuType::WRITE.0)
    }
}

impl Fmmu {
    ghost use Rattle.ec_regs.specs.Fmmu.{fmmu_of, fmmu_bytes};

    /// The record that these bytes spell.
    pub fn read(bytes: &[u8; 16]) -> Fmmu
        ensures value { result ≡ fmmu_of bytes.now }
        ensures written_back { fmmu_bytes result ≡ bytes.now }
    {
        Fmmu {
            logical: LittleEndian::read_u32(&bytes[LOGICAL_AT..]),
            length: LittleEndian::read_u16(&bytes[LENGTH_AT..]),
            start: bytes[START_AT],
            stop: bytes[STOP_AT],
            physical: LittleEndian::read_u16(&bytes[PHYSICAL_AT..]),
            bit: bytes[BIT_AT],
            kind: bytes[KIND_AT],
            activate: bytes[ACTIVATE_AT],
            reserved: [
                bytes[RESERVED_AT],
                bytes[RESERVED_AT + 1],
                bytes[RESERVED_AT + 2],
            ],
        }
    }

    /// The bytes that spell this record.
    pub fn write(&self) -> [u8; 16]
        ensures value { result ≡ fmmu_bytes self.now }
        ensures read_back { fmmu_of result ≡ self.now }
    {
        let Fmmu {
            logical,
            length,
            physical,
            reserved,
            ..
        } = *self;
        let mut bytes = [0; 16];
        LittleEndian::write_u32(&mut bytes[LOGICAL_AT..], logical);
        LittleEndian::write_u16(&mut bytes[LENGTH_AT..], length);
        bytes[START_AT] = self.start;
        bytes[STOP_AT] = self.stop;
        LittleEndian::write_u16(&mut bytes[PHYSICAL_AT..], physical);
        bytes[BIT_AT] = self.bit;
        bytes[KIND_AT] = self.kind;
        bytes[ACTIVATE_AT] = self.activate;
        bytes[RESERVED_AT..].copy_from_slice(&reserved);
        bytes
    }

    ghost use Rattle.ec_regs.specs.Pairs.{has_one_type, is_switched_on, reads, writes, first_logical};
    ghost use Rattle.ec_regs.specs.Pairs.{first_physical};
    ghost use Rattle.ec_regs.specs.Pairs.{can_map, pair_count, IsPair, physical_of, logical_of};

    /// Is the FMMU switched on?
    pub fn is_switched_on(&self) -> bool
        ensures { result ≡ is_switched_on self.now }
    {
        self.activate & ACTIVE != 0
    }

    /// Does the master read through this FMMU?
    pub fn reads(&self) -> bool
        ensures { result ≡ reads self.now }
    {
        FmmuType::from_bits_retain(self.kind).contains(FmmuType::READ)
    }

    /// Does the master write through this FMMU?
    pub fn writes(&self) -> bool
        ensures { result ≡ writes self.now }
    {
        FmmuType::from_bits_retain(self.kind).contains(FmmuType::WRITE)
    }

    /// Is the type of the FMMU that of reading alone or that of writing alone?
    pub fn has_one_type(&self) -> bool
        ensures { result ≡ has_one_type self.now }
    {
        self.kind == FmmuType::READ.0 || self.kind == FmmuType::WRITE.0
    }

    /// The number of the first logical bit, 8 * byte + bit; below 2^36.
    pub fn first_logical(&self) -> u64
        ensures value { result ≡ first_logical self.now }
        ensures bound { result < 2 ^ 36 }
    {
        8 * u64::from(self.logical) + u64::from(self.start)
    }

    /// The number of the first physical bit, 8 * byte + bit; below 2^20.
    pub fn first_physical(&self) -> u32
        ensures value { result ≡ first_physical self.now }
        ensures bound { result < 2 ^ 20 }
    {
        8 * u32::from(self.physical) + u32::from(self.bit)
    }

    /// May the FMMU map at all: is it active, has it a byte, and does each bit field name a bit of a byte?
    fn can_map(&self) -> bool
        ensures { result ≡ can_map self.now }
    {
        self.is_switched_on()
            && self.length >= 1
            && self.start <= LAST_BIT
            && self.stop <= LAST_BIT
            && self.bit <= LAST_BIT
    }

    /// How many bits the FMMU maps, below 2^20; none where it is inactive, has no byte, or a bit field names
    /// no bit of a byte.
    pub fn mapped_bits(&self) -> u32
        ensures value { result ≡ pair_count self.now }
        ensures bound { result < 2 ^ 20 }
    {
        if !self.can_map() {
            return 0;
        }
        let end = 8 * u32::from(self.length - 1) + u32::from(self.stop) + 1;
        end.saturating_sub(u32::from(self.start))
    }

    /// The physical bit that a read through this FMMU takes for a logical bit, or `None` where the logical
    /// bit is not mapped. Bit numbers are 8 * byte + bit.
    pub fn physical_of(&self, logical: u64) -> Option<u32>
        ensures value { result ≡ physical_of self.now logical }
        ensures pair { (physical : ℕ) → (result ≡ Some physical) ↔ IsPair self.now logical physical }
    {
        let first = self.first_logical();
        if logical < first || logical - first >= u64::from(self.mapped_bits()) {
            return None;
        }
        Some(self.first_physical() + (logical - first) as u32)
    }

    /// The logical bit that a write through this FMMU takes for a physical bit, or `None` where the physical
    /// bit is not mapped. Bit numbers are 8 * byte + bit.
    pub fn logical_of(&self, physical: u32) -> Option<u64>
        ensures value { result ≡ logical_of self.now physical }
        ensures pair { (logical : ℕ) → (result ≡ Some logical) ↔ IsPair self.now logical physical }
    {
        let first = self.first_physical();
        if physical < first || physical - first >= self.mapped_bits() {
            return None;
        }
        Some(self.first_logical() + u64::from(physical - first))
    }
}
