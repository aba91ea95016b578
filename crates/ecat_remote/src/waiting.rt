//! Waiting at sockets at which no call waits.

ghost use Rattle.std.specs.Prelude.{◌≡◌, ◌≤◌, IfOk, length};

use crate::ready::Ready;
use libc::net::{POLLIN, poll};
use libc::types::{pollfd, timespec};
use std::io::{self, ErrorKind};
use std::net::UdpSocket;
use std::os::fd::AsRawFd;

/// A millisecond, in microseconds: the system waits for packets in whole ones.
const MILLISECOND: u64 = 1000;

/// By so many microseconds, and this part of the time, the system may wake later than it was asked to wait
/// for packets.
const LATE: u64 = 100;

const LATE_PART: u64 = 128;

/// How many microseconds pass between two looks at sockets where less than a millisecond is left, if the
/// system wakes in time: without the rights of a realtime process it takes some 50 more.
const NAP: u64 = 20;

/// Where no more microseconds are left there is no nap between looks.
const NO_NAP: u64 = 50;

/// No descriptor: the system passes over it.
const NONE: i32 = -1;

/// Waits until a packet may be at one of two sockets, or at the only one, for so many microseconds at most,
/// and often for fewer: for whole milliseconds while one is left and some more, and then by a look and a
/// short nap. So a caller that waits on ends no more than 50 microseconds late, as far as the system lets it
/// run.
pub fn wait_at(a: &UdpSocket, b: Option<&UdpSocket>, within: u64) -> Ready {
    let mut asked = [asked_of(a.as_raw_fd()), asked_of(descriptor_of(b))];
    let limit = whole_milliseconds(within);
    let found = poll(&mut asked, limit);
    if found > 0 {
        return Ready {
            a: asked[0].revents != 0,
            b: asked[1].revents != 0,
        };
    }
    if found == 0 && limit == 0 && NO_NAP < within {
        nap();
    }
    Ready::none()
}

/// Receives a packet at a socket, for which it waits so many microseconds at most, in whole milliseconds, as
/// many as are begun.
pub fn receive_within(socket: &UdpSocket, into: &mut [u8], within: u64) -> io::Result<usize>
    ensures { IfOk result (λ count. count ≤ length into.old) }
{
    match socket.recv(into) {
        Err(fault) if fault.kind() == ErrorKind::WouldBlock && 0 < within => {
            let mut asked = [asked_of(socket.as_raw_fd())];
            poll(&mut asked, begun_milliseconds(within));
            socket.recv(into)
        }
        received => received,
    }
}

/// A descriptor, if there is one.
fn descriptor_of(socket: Option<&UdpSocket>) -> i32 {
    match socket {
        Some(socket) => socket.as_raw_fd(),
        None => NONE,
    }
}

/// The question whether something came at a descriptor.
fn asked_of(fd: i32) -> pollfd {
    pollfd {
        fd,
        events: POLLIN,
        revents: 0,
    }
}

/// For how many whole milliseconds the system can be asked to wait, so that it wakes within so many
/// microseconds.
fn whole_milliseconds(micros: u64) -> i32 {
    let asked = micros.saturating_sub(LATE + micros / LATE_PART);
    i32::try_from(asked / MILLISECOND).unwrap_or(i32::MAX)
}

/// So many microseconds in milliseconds, as many as are begun.
fn begun_milliseconds(micros: u64) -> i32 {
    i32::try_from(micros.div_ceil(MILLISECOND)).unwrap_or(i32::MAX)
}

/// Lets a short time pass.
fn nap() {
    let asked = timespec {
        tv_sec: 0,
        tv_nsec: NAP as i64 * 1000,
    };
    let mut left = timespec {
        tv_sec: 0,
        tv_nsec: 0,
    };
    libc::nanosleep(&asked, &mut left);
}
