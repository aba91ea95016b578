//! The record of a sync manager, which guards one area of process memory (IEC 61158-4-12, sync manager
//! entity).

ghost use Rattle.std.specs.Prelude.{⊤, ◌≡◌, ◌+◌, ◌≤◌, ◌<◌, [], ◌∷◌, codes, IsTrue};
ghost use Rattle.ec_regs.specs.declared.registers.TheConstants.{PROCESS_MEMORY, MEMORY_SIZE};
ghost use Rattle.ec_regs.specs.declared.registers.TheConstants.{SYNC_MANAGER_COUNT};
ghost use Rattle.ec_regs.specs.SyncMan.{pdi_address, status_address};

use crate::address_range::AddressRange;
use crate::registers::{
    MEMORY_SIZE, PROCESS_MEMORY, SYNC_MANAGER_BASE, SYNC_MANAGER_COUNT, SYNC_MANAGER_PDI,
    SYNC_MANAGER_SIZE, SYNC_MANAGER_STATUS,
};
use bitflags::{Flag, Flags, bitflag_items};
use byteorder::{ByteOrder, LittleEndian};

/// The control byte of a sync manager: the kind and the direction of its area (IEC 61158-4-12, sync manager
/// entity). With neither flag the area is buffered, and the master reads it.
#[derive(Clone, Copy, PartialEq, Eq, Debug)]
pub struct SyncManControl(u8);

bitflag_items! {
    impl SyncManControl: u8 {
        /// The area is a mailbox.
        const MAILBOX = 0x02;
        /// The master writes the area.
        const WRITE = 0x04;
    }
}

impl Flags for SyncManControl {
    type Bits = u8;

    ghost exact = { ⊤ };

    ghost table = { (codes "MAILBOX", 0x02) ∷ (codes "WRITE", 0x04) ∷ [] };

    ghost set_of = { λ flags. flags.0 };

    fn flags<'a>() -> &'a [Flag<SyncManControl>] {
        SyncManControl::FLAGS
    }

    fn bits(&self) -> u8 {
        self.0
    }

    fn from_bits_retain(bits: u8) -> SyncManControl {
        SyncManControl(bits)
    }
}

// Where the fields stand in the record, in bytes.
const START_AT: usize = 0;

const LENGTH_AT: usize = 2;

const CONTROL_AT: usize = 4;

const STATUS_AT: usize = 5;

const ACTIVATE_AT: usize = 6;

const PDI_AT: usize = 7;

/// Bit 0 of the activate byte: the sync manager is enabled.
const ENABLED: u8 = 0x01;

/// A field of two bits.
const TWO_BITS: u8 = 0x03;

/// Bits 0 and 1 of the control byte for a buffered area, which may be accessed at any time.
const BUFFERED: u8 = 0x00;

/// Bits 0 and 1 of the control byte for a mailbox, which is full or empty.
const MAILBOX: u8 = 0x02;

/// Where the direction stands in the control byte, in bits.
const DIRECTION_AT: u8 = 2;

/// The direction, bits 2 and 3 of the control byte, of an area that the master reads.
const MASTER_READS: u8 = 0x00;

/// The direction of an area that the master writes.
const MASTER_WRITES: u8 = 0x01;

/// Where bit 3 of the status byte stands: the mailbox is full.
const FULL_AT: u8 = 3;

/// Where the activate byte asks for the last mail once more, and the PDI byte tells that this was done.
const REPEAT_AT: u8 = 1;

/// The bit of the status byte that tells that the mailbox is full.
pub const MAILBOX_FULL: u8 = 0x08;

/// The shortest mailbox, in bytes.
pub const SHORTEST_MAILBOX: u16 = 16;

/// The longest mailbox, in bytes: one datagram alone in a frame has no more.
pub const LONGEST_MAILBOX: u16 = 1486;

/// One sync manager record, field by field; every 8 bytes are exactly one record.
#[derive(Clone, Copy, Debug, PartialEq, Eq)]
pub struct SyncMan {
    /// The first byte of the area.
    pub start: u16,
    /// The length of the area, in bytes.
    pub length: u16,
    /// Bits 0 and 1: 00 buffered, 10 mailbox. Bits 2 and 3: 00 the master reads, 01 the master writes. The
    /// two bits that tell these apart are those of a `SyncManControl`.
    pub control: u8,
    /// Bit 3: the mailbox is full.
    pub status: u8,
    /// Bit 0: the sync manager is enabled.
    pub activate: u8,
    /// The control byte of the process data interface, the application's side.
    pub pdi: u8,
}

impl SyncMan {
    ghost use Rattle.ec_regs.specs.SyncMan.{sync_man_of, sync_man_bytes};

    /// The record that these bytes spell.
    pub fn read(bytes: &[u8; 8]) -> SyncMan
        ensures value { result ≡ sync_man_of bytes.now }
        ensures written_back { sync_man_bytes result ≡ bytes.now }
    {
        SyncMan {
            start: LittleEndian::read_u16(&bytes[START_AT..]),
            length: LittleEndian::read_u16(&bytes[LENGTH_AT..]),
            control: bytes[CONTROL_AT],
            status: bytes[STATUS_AT],
            activate: bytes[ACTIVATE_AT],
            pdi: bytes[PDI_AT],
        }
    }

    /// The bytes that spell this record.
    pub fn write(&self) -> [u8; 8]
        ensures value { result ≡ sync_man_bytes self.now }
        ensures read_back { sync_man_of result ≡ self.now }
    {
        let SyncMan { start, length, .. } = *self;
        let mut bytes = [0; 8];
        LittleEndian::write_u16(&mut bytes[START_AT..], start);
        LittleEndian::write_u16(&mut bytes[LENGTH_AT..], length);
        bytes[CONTROL_AT] = self.control;
        bytes[STATUS_AT] = self.status;
        bytes[ACTIVATE_AT] = self.activate;
        bytes[PDI_AT] = self.pdi;
        bytes
    }

    ghost use Rattle.ec_regs.specs.SyncMan.{is_enabled, is_buffered, is_mailbox, master_reads, master_writes};
    ghost use Rattle.ec_regs.specs.SyncMan.{is_full, repeat_asked, asks_again};
    ghost use Rattle.ec_regs.specs.SyncMan.{has_area_length, is_in_process_memory, is_active, guards_outputs};

    /// Is the sync manager switched on (bit 0 of the activate byte)?
    fn is_enabled(&self) -> bool
        ensures { result ≡ is_enabled self.now }
    {
        self.activate & ENABLED != 0
    }

    /// Is the area buffered (bits 0 and 1 of the control byte are 00)?
    pub fn is_buffered(&self) -> bool
        ensures { result ≡ is_buffered self.now }
    {
        self.control & TWO_BITS == BUFFERED
    }

    /// Is the area a mailbox (bits 0 and 1 of the control byte are 10)?
    pub fn is_mailbox(&self) -> bool
        ensures { result ≡ is_mailbox self.now }
    {
        self.control & TWO_BITS == MAILBOX
    }

    /// Does the master read the area (bits 2 and 3 of the control byte are 00)?
    pub fn master_reads(&self) -> bool
        ensures { result ≡ master_reads self.now }
    {
        self.control >> DIRECTION_AT & TWO_BITS == MASTER_READS
    }

    /// Does the master write the area (bits 2 and 3 of the control byte are 01)?
    pub fn master_writes(&self) -> bool
        ensures { result ≡ master_writes self.now }
    {
        self.control >> DIRECTION_AT & TWO_BITS == MASTER_WRITES
    }

    /// Is the mailbox full (bit 3 of the status byte)?
    pub fn is_full(&self) -> bool
        ensures { result ≡ is_full self.now }
    {
        self.status >> FULL_AT & 1 == 1
    }

    /// Bit 1 of the activate byte, 1 or 0, which the master changes to have the last mail once more.
    pub fn repeat_asked(&self) -> u8
        ensures { result ≡ repeat_asked self.now }
    {
        self.activate >> REPEAT_AT & 1
    }

    /// Does the master ask for the last mail once more, and is that not told as done: is bit 1 of the
    /// activate byte not as bit 1 of the PDI byte?
    pub fn asks_again(&self) -> bool
        ensures { result ≡ asks_again self.now }
    {
        self.repeat_asked() != self.pdi >> REPEAT_AT & 1
    }

    /// May an area of the record's kind have the record's length?
    fn has_area_length(&self) -> bool
        ensures { result ≡ has_area_length self.now }
    {
        if self.is_mailbox() {
            SHORTEST_MAILBOX <= self.length && self.length <= LONGEST_MAILBOX
        } else {
            self.length >= 1
        }
    }

    /// Does the area lie in process memory?
    fn is_in_process_memory(&self) -> bool
        ensures { result ≡ is_in_process_memory self.now }
    {
        let end = u32::from(self.start) + u32::from(self.length);
        PROCESS_MEMORY <= self.start && end <= u32::from(MEMORY_SIZE)
    }

    /// Does the sync manager guard an area: is it enabled, of a known kind and direction, and does its area
    /// have a length of its kind and lie in process memory (IEC 61158-4-12, sync manager)?
    #[tactic(auto, unfolding(crate::specs::SyncMan::is_active))]
    pub fn is_active(&self) -> bool
        ensures value { result ≡ is_active self.now }
        ensures from { IsTrue result → PROCESS_MEMORY ≤ self.now.start }
        ensures to { IsTrue result → self.now.start + self.now.length ≤ MEMORY_SIZE }
    {
        self.is_enabled()
            && (self.is_buffered() || self.is_mailbox())
            && (self.master_reads() || self.master_writes())
            && self.has_area_length()
            && self.is_in_process_memory()
    }

    /// Does the sync manager guard outputs, a buffered area that the master writes?
    pub fn guards_outputs(&self) -> bool
        ensures value { result ≡ guards_outputs self.now }
        ensures from { IsTrue result → PROCESS_MEMORY ≤ self.now.start }
        ensures to { IsTrue result → self.now.start + self.now.length ≤ MEMORY_SIZE }
    {
        self.is_active() && self.is_buffered() && self.master_writes()
    }

    ghost use Rattle.ec_regs.specs.SyncMan.{guards_inputs};

    /// Does the sync manager guard inputs, a buffered area that the master reads?
    pub fn guards_inputs(&self) -> bool
        ensures value { result ≡ guards_inputs self.now }
        ensures from { IsTrue result → PROCESS_MEMORY ≤ self.now.start }
        ensures to { IsTrue result → self.now.start + self.now.length ≤ MEMORY_SIZE }
    {
        self.is_active() && self.is_buffered() && self.master_reads()
    }

    /// The bytes of the area, whether it is active or not.
    pub fn area(&self) -> AddressRange
        ensures { result ≡ record { first = self.now.start; count = self.now.length } }
    {
        AddressRange {
            first: self.start,
            count: self.length,
        }
    }
}

/// The address of the status byte of the sync manager with a number.
pub fn status_address(number: usize) -> u16
    requires { number < SYNC_MANAGER_COUNT }
    ensures value { result ≡ status_address number }
    ensures inside { result < MEMORY_SIZE }
{
    SYNC_MANAGER_BASE + SYNC_MANAGER_SIZE * number as u16 + SYNC_MANAGER_STATUS
}

/// The address of the PDI byte of the sync manager with a number.
pub fn pdi_address(number: usize) -> u16
    requires { number < SYNC_MANAGER_COUNT }
    ensures value { result ≡ pdi_address number }
    ensures inside { result < MEMORY_SIZE }
{
    SYNC_MANAGER_BASE + SYNC_MANAGER_SIZE * number as u16 + SYNC_MANAGER_PDI
}

/// The control byte of a buffered area that the master reads.
const READ_BUFFER: u8 = 0x00;

/// The control byte of a buffered area that the master writes.
const WRITTEN_BUFFER: u8 = 0x04;

/// The control byte of a mailbox that the master reads.
const READ_MAILBOX: u8 = 0x02;

/// The control byte of a mailbox that the master writes.
const WRITTEN_MAILBOX: u8 = 0x06;

impl SyncMan {
    /// A sync manager that is switched on over an area, with this control byte.
    fn over(start: u16, length: u16, control: u8) -> SyncMan
        ensures { result ≡ record {
          start = start;
          length = length;
          control = control;
          status = 0;
          activate = 1;
          pdi = 0;
        } }
    {
        SyncMan {
            start,
            length,
            control,
            status: 0,
            activate: ENABLED,
            pdi: 0,
        }
    }

    /// A sync manager that guards outputs: a buffered area that the master writes.
    pub fn outputs(start: u16, length: u16) -> SyncMan
        ensures { result ≡ record {
          start = start;
          length = length;
          control = 4;
          status = 0;
          activate = 1;
          pdi = 0;
        } }
    {
        SyncMan::over(start, length, WRITTEN_BUFFER)
    }

    /// A sync manager that guards inputs: a buffered area that the master reads.
    pub fn inputs(start: u16, length: u16) -> SyncMan
        ensures { result ≡ record {
          start = start;
          length = length;
          control = 0;
          status = 0;
          activate = 1;
          pdi = 0;
        } }
    {
        SyncMan::over(start, length, READ_BUFFER)
    }

    /// A sync manager that guards the mailbox of the master's requests, which the master writes.
    pub fn mailbox_from_master(start: u16, length: u16) -> SyncMan
        ensures { result ≡ record {
          start = start;
          length = length;
          control = 6;
          status = 0;
          activate = 1;
          pdi = 0;
        } }
    {
        SyncMan::over(start, length, WRITTEN_MAILBOX)
    }

    /// A sync manager that guards the mailbox of the slave's answers, which the master reads.
    pub fn mailbox_to_master(start: u16, length: u16) -> SyncMan
        ensures { result ≡ record {
          start = start;
          length = length;
          control = 2;
          status = 0;
          activate = 1;
          pdi = 0;
        } }
    {
        SyncMan::over(start, length, READ_MAILBOX)
    }
}
