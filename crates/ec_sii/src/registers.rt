//! The registers of the slave information interface, and their bytes both ways (ETG.1000.4, slave information
//! interface).

ghost use Rattle.std.specs.Prelude.{◌≡◌, length, List, ℕ};
ghost use Rattle.ec_sii.specs.Registers.{registers_of, registers_bytes};

/// How many bytes the registers are.
pub const SIZE: usize = 16;

/// How many bytes of data there are.
pub const DATA: usize = 8;

/// The sixteen registers.
#[derive(Clone, Copy, PartialEq, Eq, Debug)]
pub struct SiiRegisters {
    /// Who has access: the master, or the slave's side.
    pub access: u8,
    /// Whether the slave's side accesses it now; the master does not write it.
    pub pdi: u8,
    /// The low byte of control and status: bit 0 lets one write pass, bit 6 says that a read gives eight
    /// bytes.
    pub control: u8,
    /// The high byte: bits 0 to 2 are the command, bits 3 to 6 errors, bit 7 says that a command runs.
    pub command: u8,
    /// The address of a word of two bytes.
    pub address: u32,
    /// What was read, or is to be written.
    pub words: [u8; DATA],
}

impl SiiRegisters {
    /// The registers that these bytes spell.
    pub fn read(bytes: &[u8; SIZE]) -> SiiRegisters
        ensures { result ≡ registers_of bytes.now }
    {
        SiiRegisters {
            access: bytes[0],
            pdi: bytes[1],
            control: bytes[2],
            command: bytes[3],
            address: u32::from_le_bytes([bytes[4], bytes[5], bytes[6], bytes[7]]),
            words: [
                bytes[8], bytes[9], bytes[10], bytes[11], bytes[12], bytes[13], bytes[14],
                bytes[15],
            ],
        }
    }

    /// The bytes that spell them.
    pub fn write(&self) -> [u8; SIZE]
        ensures { result ≡ registers_bytes self.now }
    {
        let address = self.address.to_le_bytes();
        let words = &self.words;
        [
            self.access,
            self.pdi,
            self.control,
            self.command,
            address[0],
            address[1],
            address[2],
            address[3],
            words[0],
            words[1],
            words[2],
            words[3],
            words[4],
            words[5],
            words[6],
            words[7],
        ]
    }
}
