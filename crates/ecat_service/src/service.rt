//! Where a line is served, and for how long.

ghost use Rattle.std.specs.Prelude.{◌≡◌};
ghost use Rattle.ecat_service.specs.Services.{awaits_input};

use ecat_raw::Descriptors;
use std::net::Ipv4Addr;

/// Where a line is served, and for how long.
#[derive(Clone, Copy)]
pub struct Service {
    /// The address of both ends.
    pub address: Ipv4Addr,
    /// The port of end A. End B has the next one.
    pub port: u16,
    /// After how many packets the service ends; without it where no more are to come.
    pub packets: Option<u32>,
    /// Whether it goes on where the input has ended.
    pub forever: bool,
    /// Whether the input has commands.
    pub control: bool,
    /// Whether each packet is told of.
    pub log: bool,
    /// Whether slaves of which the scene does not say it are no devices.
    pub plain: bool,
    /// Whether devices begin as the scene sets them up, and not as just switched on.
    pub set_up: bool,
    /// The packet sockets at which the ends lie, if they do not lie at the address.
    pub raw: Option<Descriptors>,
}

impl Service {
    /// Does it end with the input? Else that is left alone.
    pub fn awaits_input(&self) -> bool
        ensures { result ≡ awaits_input self.now }
    {
        self.control || (self.packets.is_none() && !self.forever)
    }
}
