//! The kinds of items that a cycle carries.

ghost use Rattle.std.specs.Prelude.{◌≡◌};
ghost use Rattle.ec_wire.specs.Kind.{command_of};

use crate::command::Command;

/// What an item of a cycle does (IEC 61158-4-12, the command field of a datagram).
#[derive(Clone, Copy, PartialEq, Eq, Debug)]
pub enum Kind {
    /// A logical read.
    Lrd,
    /// A logical write.
    Lwr,
    /// A logical exchange.
    Lrw,
    /// A broadcast read of registers.
    Brd,
    /// A read of the slave with a station address.
    Fprd,
    /// A write of the slave with a station address.
    Fpwr,
}

impl Kind {
    /// The command of its datagram.
    pub fn command(self) -> Command
        ensures { result ≡ command_of self }
    {
        match self {
            Kind::Lrd => Command::Lrd,
            Kind::Lwr => Command::Lwr,
            Kind::Lrw => Command::Lrw,
            Kind::Brd => Command::Brd,
            Kind::Fprd => Command::Fprd,
            Kind::Fpwr => Command::Fpwr,
        }
    }
}
