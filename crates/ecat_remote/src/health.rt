//! How both ports' sends and receives go.

use ec_ring::{Port, PortHealth};
use std::io;

/// How the sends and receives of both ports of a master go.
#[derive(Clone, Copy, PartialEq, Eq, Debug)]
pub struct PortsHealth {
    a: OnePort,
    b: OnePort,
}

/// How those of one port go.
#[derive(Clone, Copy, PartialEq, Eq, Debug)]
struct OnePort {
    health: PortHealth,
    /// Whether the system told that nobody listens at the line's end, and nothing has come from there since.
    refused: bool,
}

impl OnePort {
    /// Of a port at which none has failed.
    fn sound() -> OnePort {
        OnePort {
            health: PortHealth::sound(),
            refused: false,
        }
    }

    /// Behind a send or receive that failed with this error, since nobody listens there or for another cause.
    fn failing(self, error: i32, refused: bool) -> OnePort {
        OnePort {
            health: self.health.failing(error),
            refused,
        }
    }

    /// Where nothing speaks against it any more.
    fn working(self) -> OnePort {
        OnePort {
            health: self.health.working(),
            refused: false,
        }
    }
}

impl PortsHealth {
    /// Of ports at which none has failed.
    pub fn sound() -> PortsHealth {
        PortsHealth {
            a: OnePort::sound(),
            b: OnePort::sound(),
        }
    }

    /// How those of a port go.
    pub fn at(&self, port: Port) -> PortHealth {
        self.one(port).health
    }

    /// Takes an error of a send or receive at a port; one that the system did not number counts as 0.
    pub fn fails(&mut self, port: Port, error: &io::Error) {
        let error = error.raw_os_error().unwrap_or(0);
        self.set(port, self.one(port).failing(error, false));
    }

    /// Takes that nobody listens at the line's end, as a send or receive at a port was told. The port fails
    /// so until something comes there: a send that works says nothing of who listens.
    pub fn is_refused(&mut self, port: Port, error: &io::Error) {
        let error = error.raw_os_error().unwrap_or(0);
        self.set(port, self.one(port).failing(error, true));
    }

    /// Takes that a send from a port did not fail.
    pub fn works(&mut self, port: Port) {
        let one = self.one(port);
        if !one.refused {
            self.set(port, one.working());
        }
    }

    /// Takes that something came at a port: somebody is there.
    pub fn hears(&mut self, port: Port) {
        let one = self.one(port);
        if one.refused {
            self.set(port, one.working());
        }
    }

    /// How those of one port go.
    fn one(&self, port: Port) -> OnePort {
        match port {
            Port::A => self.a,
            Port::B => self.b,
        }
    }

    /// Sets how those of one port go.
    fn set(&mut self, port: Port, one: OnePort) {
        match port {
            Port::A => self.a = one,
            Port::B => self.b = one,
        }
    }
}
