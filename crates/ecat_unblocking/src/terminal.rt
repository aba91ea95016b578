//! A terminal to which no write waits.

use arrayvec::ArrayString;
use std::fmt::Write as _;
use std::fs::OpenOptions;
use std::io::{self, Write};
use std::os::fd::{AsRawFd, RawFd};
use std::rt::Files;

/// How many bytes the path of a descriptor has at the most.
const PATH: usize = 32;

/// A writer that was given, or a file that was opened on the same terminal.
#[derive(Drop)]
pub enum Screen<'a, W, F> {
    /// The writer.
    Given(&'a mut W),
    /// The file.
    Opened(F),
}

impl<'a, W, F> Screen<'a, W, F> {
    /// The terminal of a descriptor, opened once more so that none of its writes waits: what a terminal takes
    /// at once cannot be asked for, and what has its descriptor, as the shell, is not to be touched. Where it
    /// cannot be opened, or there is none, the writer that was given.
    pub fn of<R>(rt: &R, out: &'a mut W, terminal: Option<RawFd>) -> Screen<'a, W, F>
    where
        R: Files<File = F>,
        F: AsRawFd + Drop,
    {
        match terminal {
            Some(descriptor) => match opened(rt, descriptor) {
                Some(file) => Screen::Opened(file),
                None => Screen::Given(out),
            },
            None => Screen::Given(out),
        }
    }
}

impl<W: Write, F: Write> Write for Screen<'_, W, F> {
    fn write(&mut self, bytes: &[u8]) -> io::Result<usize> {
        match self {
            Screen::Given(out) => out.write(bytes),
            Screen::Opened(file) => file.write(bytes),
        }
    }

    fn flush(&mut self) -> io::Result<()> {
        match self {
            Screen::Given(out) => out.flush(),
            Screen::Opened(file) => file.flush(),
        }
    }
}

/// What a descriptor is open on, opened once more (Linux, `/proc`), so that none of its writes waits.
fn opened<R: Files>(rt: &R, descriptor: RawFd) -> Option<R::File>
where
    R::File: AsRawFd,
{
    let mut path = ArrayString::<PATH>::new();
    write!(path, "/proc/self/fd/{descriptor}").ok()?;
    let file = OpenOptions::new().write(true).open(rt, path.as_str()).ok()?;
    if never_waits(&file) { Some(file) } else { None }
}

/// Has a file be one to which no write waits, if the system lets it: where one would have to, it fails as
/// `WouldBlock`. Whoever shares the open file has it so too, so it is for files that a program opens itself.
pub fn never_waits(file: &impl AsRawFd) -> bool {
    os::set_nonblocking(file.as_raw_fd(), true) >= 0
}
