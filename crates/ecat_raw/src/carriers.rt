//! Whether the interfaces at the ends of a line have a carrier: whether a cable is plugged in that somebody
//! drives at its other end.

ghost use Rattle.std.specs.Prelude.{◌≡◌, false, true};

use crate::sockets::Descriptors;
use arrayvec::ArrayString;
use ec_ring::Port;
use ecat_serve::Plugs;
use libc::net::_SS_SIZE;
use std::fmt::Write;
use std::fs;
use std::io::{ErrorKind, Read};
use std::os::fd::RawFd;
use std::rt::Files;

/// Where the system tells of the interfaces that a process sees: a folder for each (Linux, sysfs).
const INTERFACES: &str = "/sys/class/net/";

/// How many bytes the names of interfaces are read by; none has more than 15.
const NAMES_ROOM: usize = 4096;

/// How many bytes the path of a file has at the most that tells of an interface.
const PATH: usize = 64;

/// The path of a file that tells of an interface.
type Path = ArrayString<PATH>;

/// The interface that a packet socket is bound to: its number, and its hardware address of six bytes.
#[derive(Clone, Copy, PartialEq, Eq, Debug)]
struct Interface {
    number: u32,
    address: [u8; 6],
}

/// What the system tells of the interfaces at both ends of a line.
///
/// An interface has a carrier unless the system says that it has none, that it is down, or that it is there
/// no more. One of which it tells nothing, as where another network namespace is shown at `/sys`, has one.
#[derive(Drop)]
pub struct Carriers<'a, R> {
    rt: &'a R,
    a: Option<Path>,
    b: Option<Path>,
}

impl<'a, R: Files> Carriers<'a, R> {
    /// Of the interfaces that these packet sockets are bound to.
    pub fn of(rt: &'a R, descriptors: Descriptors) -> Carriers<'a, R> {
        Carriers {
            rt,
            a: carrier_of(rt, descriptors.a),
            b: match descriptors.b {
                Some(descriptor) => carrier_of(rt, descriptor),
                None => None,
            },
        }
    }
}

impl<R: Files> Plugs for Carriers<'_, R> {
    fn is_plugged(&mut self, at: Port) -> bool {
        let path = match at {
            Port::A => &self.a,
            Port::B => &self.b,
        };
        match path {
            Some(path) => has_carrier(self.rt, path.as_str()),
            None => true,
        }
    }
}

/// The file that tells of the carrier of the interface that a packet socket is bound to, if there is one.
fn carrier_of<R: Files>(rt: &R, descriptor: u16) -> Option<Path> {
    let interface = interface_of(RawFd::from(descriptor))?;
    let mut names = rt.open_dir(INTERFACES).ok()?;
    let mut room = [0; NAMES_ROOM];
    for _piece in 0..u64::MAX {
        let count = names.read(&mut room).ok()?;
        if count == 0 {
            return None;
        }
        for name in room[..count.min(NAMES_ROOM)].split(|byte| *byte == 0) {
            if let Ok(name) = str::from_utf8(name)
                && is_interface(rt, name, interface)
            {
                return path_of(name, "carrier");
            }
        }
    }
    None
}

/// The interface that a packet socket is bound to, by its own address: behind the family and the type its
/// number, and from byte 12 on its hardware address (Linux, `sockaddr_ll`).
fn interface_of(descriptor: RawFd) -> Option<Interface> {
    let mut own = [0; _SS_SIZE];
    let mut length = 128;
    if unsafe { libc::net::getsockname(descriptor, &mut own, &mut length) } < 0 {
        return None;
    }
    Some(Interface {
        number: u32::from_ne_bytes([own[4], own[5], own[6], own[7]]),
        address: [own[12], own[13], own[14], own[15], own[16], own[17]],
    })
}

/// Does an interface have this number and this hardware address?
fn is_interface<R: Files>(rt: &R, name: &str, interface: Interface) -> bool {
    let mut number = ArrayString::<PATH>::new();
    let Interface {
        number: wanted,
        address,
    } = interface;
    let [a, b, c, d, e, f] = address;
    let mut hardware = ArrayString::<PATH>::new();
    write!(number, "{wanted}\n").is_ok()
        && write!(
            hardware,
            "{a:02x}:{b:02x}:{c:02x}:{d:02x}:{e:02x}:{f:02x}\n"
        )
        .is_ok()
        && says(rt, name, "ifindex", number.as_str())
        && says(rt, name, "address", hardware.as_str())
}

/// Does a file that tells of an interface say this?
fn says<R: Files>(rt: &R, name: &str, what: &str, wanted: &str) -> bool {
    let Some(path) = path_of(name, what) else {
        return false;
    };
    let Ok(mut file) = fs::open(rt, path.as_str()) else {
        return false;
    };
    let mut room = [0; PATH];
    match file.read(&mut room) {
        Ok(count) => &room[..count.min(PATH)] == wanted.as_bytes(),
        Err(_) => false,
    }
}

/// The path of a file that tells of an interface.
fn path_of(name: &str, what: &str) -> Option<Path> {
    let mut path = Path::new();
    match write!(path, "{INTERFACES}{name}/{what}") {
        Ok(()) => Some(path),
        Err(_) => None,
    }
}

/// Does the file of an interface say that it has a carrier? Of one that is down it cannot be read, and one
/// that is there no more has none.
fn has_carrier<R: Files>(rt: &R, path: &str) -> bool {
    let mut file = match fs::open(rt, path) {
        Ok(file) => file,
        Err(fault) => return fault.kind() != ErrorKind::NotFound,
    };
    let mut said = [0; 2];
    match file.read(&mut said) {
        Ok(count) => count != 0 && said[0] == b'1',
        Err(fault) => fault.kind() != ErrorKind::InvalidInput,
    }
}

#[cfg(test)]
mod tests {
    use super::{Carriers, Interface, is_interface, path_of};
    use ec_ring::Port;
    use ecat_serve::Plugs;

    #[test]
    fn an_interface_that_is_gone_has_no_carrier(rt: HostRuntime) {
        let mut carriers = Carriers {
            rt: &rt,
            a: path_of("no-such-one", "carrier"),
            b: None,
        };
        assert!(rt; !carriers.is_plugged(Port::A), "one that is gone");
        assert!(rt;
            carriers.is_plugged(Port::B),
            "one of which nothing is told"
        );
        let nobody = Interface {
            number: 1,
            address: [0; 6],
        };
        assert!(rt; !is_interface(&rt, "no-such-one", nobody), "another name");
    }
}
