//! Commands: which slaves they address, and what they do (IEC 61158-4-12, the command field of a datagram).

ghost use Rattle.std.specs.Prelude.{◌≡◌, ◌<◌, ◌≤◌};
ghost use Rattle.ec_wire.specs.Command.{addressing, reads, writes, counts_adp, name_of};
ghost use Rattle.ec_wire.specs.Datagram.{code_of, command_of};

/// Which slaves a command addresses (IEC 61158-4-12, addressing).
#[derive(Clone, Copy, PartialEq, Eq, Debug)]
pub enum Addressing {
    /// None: these slaves pass the datagram on.
    Nobody,
    /// Auto-increment addressing: the slave at a place on the line, where the ADP comes to it as 0; each
    /// slave counts the ADP up.
    AutoIncrement,
    /// Configured station addressing: the slave whose station address is the ADP.
    ConfiguredStation,
    /// Broadcast: each slave, and each counts the ADP up.
    All,
    /// Logical addressing: the slaves whose FMMUs map a part of the logical range.
    Logical,
}

/// What a datagram asks of the slaves (IEC 61158-4-12, the command field of a datagram). The names
/// are the standard's: `Ap` addresses a slave by its place, `Fp` by its station address, `B` all of
/// them, and `L` by the logical address that the FMMUs map; `Rd` reads, `Wr` writes, `Rw` does both.
#[derive(Clone, Copy, PartialEq, Eq, Debug)]
pub enum Command {
    /// No operation.
    Nop,
    /// Auto-increment physical read.
    Aprd,
    /// Auto-increment physical write.
    Apwr,
    /// Auto-increment physical read and write.
    Aprw,
    /// Configured-address physical read.
    Fprd,
    /// Configured-address physical write.
    Fpwr,
    /// Configured-address physical read and write.
    Fprw,
    /// Broadcast read.
    Brd,
    /// Broadcast write.
    Bwr,
    /// Broadcast read and write.
    Brw,
    /// Logical memory read.
    Lrd,
    /// Logical memory write.
    Lwr,
    /// Logical memory read and write.
    Lrw,
    /// Auto-increment physical read, multiple write.
    Armw,
    /// Configured-address physical read, multiple write.
    Frmw,
}

/// The highest code of a command.
pub(crate) const LAST_CODE: u8 = 14;

impl Command {
    /// The command of a code from the wire, 0 to 14; a higher code has none.
    #[tactic(auto, unfolding(crate::specs::Datagram::command_of))]
    pub fn from_code(code: u8) -> Option<Command>
        ensures known { code < 15 → result ≡ Some (command_of code) }
        ensures unknown { 15 ≤ code → result ≡ None }
    {
        let command = match code {
            0 => Command::Nop,
            1 => Command::Aprd,
            2 => Command::Apwr,
            3 => Command::Aprw,
            4 => Command::Fprd,
            5 => Command::Fpwr,
            6 => Command::Fprw,
            7 => Command::Brd,
            8 => Command::Bwr,
            9 => Command::Brw,
            10 => Command::Lrd,
            11 => Command::Lwr,
            12 => Command::Lrw,
            13 => Command::Armw,
            14 => Command::Frmw,
            _ => return None,
        };
        Some(command)
    }

    /// The code on the wire, 0 to 14.
    pub fn code(self) -> u8
        ensures { result ≡ code_of self }
    {
        self as u8
    }

    /// Which slaves it addresses. NOP addresses none; BRW, ARMW and FRMW address none of these slaves.
    pub fn addressing(self) -> Addressing
        ensures { result ≡ addressing self }
    {
        match self {
            Command::Aprd | Command::Apwr | Command::Aprw => Addressing::AutoIncrement,
            Command::Fprd | Command::Fpwr | Command::Fprw => Addressing::ConfiguredStation,
            Command::Brd | Command::Bwr => Addressing::All,
            Command::Lrd | Command::Lwr | Command::Lrw => Addressing::Logical,
            Command::Nop | Command::Brw | Command::Armw | Command::Frmw => Addressing::Nobody,
        }
    }

    /// Does a slave that it addresses fill its data?
    pub fn reads(self) -> bool
        ensures { result ≡ reads self }
    {
        matches!(
            self,
            Command::Aprd
                | Command::Aprw
                | Command::Fprd
                | Command::Fprw
                | Command::Brd
                | Command::Lrd
                | Command::Lrw
        )
    }

    /// Does a slave that it addresses take its data?
    pub fn writes(self) -> bool
        ensures { result ≡ writes self }
    {
        matches!(
            self,
            Command::Apwr
                | Command::Aprw
                | Command::Fpwr
                | Command::Fprw
                | Command::Bwr
                | Command::Lwr
                | Command::Lrw
        )
    }

    /// Does each slave count up its ADP?
    pub fn counts_adp(self) -> bool
        ensures { result ≡ counts_adp self }
    {
        matches!(
            self.addressing(),
            Addressing::AutoIncrement | Addressing::All
        )
    }

    /// The name of the command in the standard, in capitals.
    pub fn name(self) -> &'static str
        ensures { result.now ≡ name_of self }
    {
        match self {
            Command::Nop => "NOP",
            Command::Aprd => "APRD",
            Command::Apwr => "APWR",
            Command::Aprw => "APRW",
            Command::Fprd => "FPRD",
            Command::Fpwr => "FPWR",
            Command::Fprw => "FPRW",
            Command::Brd => "BRD",
            Command::Bwr => "BWR",
            Command::Brw => "BRW",
            Command::Lrd => "LRD",
            Command::Lwr => "LWR",
            Command::Lrw => "LRW",
            Command::Armw => "ARMW",
            Command::Frmw => "FRMW",
        }
    }
}
