//! What a controller tells of itself in its first ten registers (IEC 61158-4-12, DL information).

ghost use Rattle.std.specs.Prelude.{◌≡◌};
ghost use Rattle.ec_regs.specs.Information.{information_bytes};

use crate::registers::INFORMATION_SIZE;

/// How many bytes a controller tells of itself.
pub const INFORMATION: usize = INFORMATION_SIZE as usize;

/// What a controller tells of itself, field by field. Only the slave's side sets it; no master writes it.
#[derive(Clone, Copy, Debug, PartialEq, Eq)]
pub struct Information {
    /// Which kind of chip it is, register 0x0000, as 0x04 for an IP core or 0x11 for an ET1100. With 0 the
    /// controller tells nothing of itself, and has no slave information interface.
    pub kind: u8,
    /// The revision of the chip, register 0x0001.
    pub revision: u8,
    /// The build of the chip, registers 0x0002 and 0x0003.
    pub build: u16,
    /// How many FMMUs it has, register 0x0004.
    pub fmmus: u8,
    /// How many sync managers it has, register 0x0005.
    pub sync_managers: u8,
    /// How much process memory it has, in units of 1,024 bytes, register 0x0006.
    pub memory: u8,
    /// Its four ports, two bits each, port 0 lowest, register 0x0007: 0 there is none, 1 it is not
    /// configured, 2 E-bus, 3 MII.
    pub ports: u8,
    /// What it can do, registers 0x0008 and 0x0009: bit 2 tells of distributed clocks.
    pub features: u16,
}

impl Information {
    /// An IP core of two MII ports with 8 FMMUs, 8 sync managers, and 8,192 bytes of process memory, without
    /// distributed clocks.
    pub fn ip_core() -> Information
        ensures { result ≡ record {
          kind = 4;
          revision = 0;
          build = 0;
          fmmus = 8;
          sync_managers = 8;
          memory = 8;
          ports = 15;
          features = 0;
        } }
    {
        Information {
            kind: 0x04,
            revision: 0,
            build: 0,
            fmmus: 8,
            sync_managers: 8,
            memory: 8,
            ports: 0x0F,
            features: 0,
        }
    }

    /// The bytes that spell it, register after register.
    pub fn bytes(&self) -> [u8; INFORMATION]
        ensures { result ≡ information_bytes self.now }
    {
        let build = self.build.to_le_bytes();
        let features = self.features.to_le_bytes();
        [
            self.kind,
            self.revision,
            build[0],
            build[1],
            self.fmmus,
            self.sync_managers,
            self.memory,
            self.ports,
            features[0],
            features[1],
        ]
    }
}
