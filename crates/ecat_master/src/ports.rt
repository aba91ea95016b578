//! Ports that fail, and ports at which nothing comes any more.

use crate::telling::put_cycle;
use ec_ring::{HeardPorts, Port, PortHealth};
use ec_run::{Watched, Ways};
use ecat_text::{Lines, PortText, SystemError};
use std::io::{self, Write};

/// After how many cycles a port is told at which nothing comes.
const PATIENCE: u64 = 100;

/// What came at one port.
#[derive(Clone, Copy)]
struct Silence {
    /// Whether anything ever came there: a master of one port never hears the other one.
    was_heard: bool,
    /// For how many cycles nothing has come there, while copies came at the other one.
    cycles: u64,
}

/// What is told of a port.
#[derive(Clone, Copy, PartialEq, Eq)]
enum News {
    /// Nothing.
    None,
    /// Nothing has come there for `PATIENCE` cycles.
    Silent,
    /// Something comes there again.
    Heard,
}

impl Silence {
    /// Takes whether copies of a cycle came there, and at the other port.
    fn take(&mut self, came: bool, came_there: bool) -> News {
        if came {
            let was_told = self.cycles >= PATIENCE;
            self.was_heard = true;
            self.cycles = 0;
            return if was_told { News::Heard } else { News::None };
        }
        if !self.was_heard || !came_there || self.cycles >= PATIENCE {
            return News::None;
        }
        self.cycles += 1;
        if self.cycles == PATIENCE {
            News::Silent
        } else {
            News::None
        }
    }
}

/// What is told of one port.
#[derive(Clone, Copy)]
struct PortNews {
    silence: Silence,
    /// Whether it is told that it fails.
    fails: bool,
}

impl PortNews {
    /// Of a port of which nothing is told.
    fn none() -> PortNews {
        PortNews {
            silence: Silence {
                was_heard: false,
                cycles: 0,
            },
            fails: false,
        }
    }

    /// Tells that its sends and receives fail, by the system's words, or that they work again.
    fn tell_health<W: Write>(
        &mut self,
        cycle: u64,
        port: Port,
        health: PortHealth,
        is_good: bool,
        lines: &mut Lines<'_, W>,
    ) -> io::Result<()> {
        if health.error.is_some() == self.fails {
            return Ok(());
        }
        self.fails = health.error.is_some();
        put_cycle(cycle, lines)?;
        match health.error {
            Some(error) => {
                if is_good {
                    lines.text("redundancy lost: ")?;
                }
                put_failing(port, error, lines)?;
            }
            None => lines.text(format_args!("port {} works again", PortText(port)))?,
        }
        lines.end()
    }

    /// Tells that nothing comes there any more while copies come at the other one, or that they come again.
    /// Of one that fails nothing is told.
    fn tell_silence<W: Write>(
        &mut self,
        cycle: u64,
        port: Port,
        came: bool,
        came_there: bool,
        lines: &mut Lines<'_, W>,
    ) -> io::Result<()> {
        match self.silence.take(came, came_there) {
            News::None => Ok(()),
            News::Silent if self.fails => Ok(()),
            News::Silent => put_news(cycle, "nothing came at", port, " for 100 cycles", lines),
            News::Heard => put_news(cycle, "copies come at", port, " again", lines),
        }
    }
}

/// What is told of both ports, cycle after cycle.
#[derive(Clone, Copy)]
pub(crate) struct PortsNews {
    a: PortNews,
    b: PortNews,
}

impl PortsNews {
    /// Of no cycle.
    pub(crate) fn new() -> PortsNews {
        PortsNews {
            a: PortNews::none(),
            b: PortNews::none(),
        }
    }

    /// Takes what a cycle that was good or not showed of both ports, and tells of one that fails, at which
    /// nothing comes any more, or that is as it was before.
    pub(crate) fn tell<P: HeardPorts, W: Write>(
        &mut self,
        cycle: u64,
        is_good: bool,
        ports: &Watched<P>,
        lines: &mut Lines<'_, W>,
    ) -> io::Result<()> {
        let at_a = ports.has_heard_at(Port::A);
        let at_b = ports.has_heard_at(Port::B);
        self.a
            .tell_health(cycle, Port::A, ports.health(Port::A), is_good, lines)?;
        self.b
            .tell_health(cycle, Port::B, ports.health(Port::B), is_good, lines)?;
        self.a.tell_silence(cycle, Port::A, at_a, at_b, lines)?;
        self.b.tell_silence(cycle, Port::B, at_b, at_a, lines)
    }

    /// Is it told of a port that it fails?
    pub(crate) fn some_fails(&self) -> bool {
        self.a.fails || self.b.fails
    }

    /// Puts which ports are dead, if one is, behind a line of progress.
    pub(crate) fn put_dead<W: Write>(&self, lines: &mut Lines<'_, W>) -> io::Result<()> {
        if self.a.is_dead() {
            lines.text(", port A dead")?;
        }
        if self.b.is_dead() {
            lines.text(", port B dead")?;
        }
        Ok(())
    }
}

impl PortNews {
    /// Does the port fail, or does nothing come there any more?
    fn is_dead(self) -> bool {
        self.fails || self.silence.cycles >= PATIENCE
    }
}

/// Puts that a port fails, and with which error.
pub(crate) fn put_failing<W: Write>(
    port: Port,
    error: i32,
    lines: &mut Lines<'_, W>,
) -> io::Result<()> {
    let port = PortText(port);
    let error = SystemError(error);
    lines.text(format_args!("port {port} failed ({error})"))
}

/// At which ports of a master no copy came.
#[derive(Clone, Copy, PartialEq, Eq)]
pub(crate) enum Silent {
    /// At neither: copies came at both.
    Neither,
    /// At this one alone.
    At(Port),
    /// At both.
    Both,
}

impl Silent {
    /// Puts at which ports nothing came, if it is one, behind where the cable is broken.
    pub(crate) fn put<W: Write>(self, lines: &mut Lines<'_, W>) -> io::Result<()> {
        match self {
            Silent::Neither => Ok(()),
            Silent::At(port) => {
                let port = PortText(port);
                lines.text(format_args!(", nothing came at port {port}"))
            }
            Silent::Both => lines.text(", nothing came at ports A and B"),
        }
    }
}

/// At which ports no copy came of the frames that these ports tell of.
pub(crate) fn silent_of<P: HeardPorts>(ports: &Watched<P>) -> Silent {
    match (ports.has_heard_at(Port::A), ports.has_heard_at(Port::B)) {
        (true, true) => Silent::Neither,
        (false, true) => Silent::At(Port::A),
        (true, false) => Silent::At(Port::B),
        (false, false) => Silent::Both,
    }
}

/// Are the copies of the frames that these ports tell of those of a whole ring whose ports are swapped?
/// Slaves count in the copy from end A alone: it came at port A then, and nobody counted in the other one.
/// Ports that know where a copy started tell it as the one from there, and others by where it came.
pub(crate) fn are_swapped<P: HeardPorts>(ports: &Watched<P>) -> bool {
    let signs = ports.signs();
    let total = total_of(ports.counts());
    match signs.ways {
        Ways::Crossed => total != 0 && signs.by_a == 0,
        Ways::Turned => total != 0 && signs.by_a == total,
        Ways::Lost => false,
    }
}

/// How far counters moved, all together modulo 65,536.
fn total_of(counts: &[u16]) -> u16 {
    let mut total = 0u16;
    for count in counts {
        total = total.wrapping_add(*count);
    }
    total
}

/// With which errors of the system the ports of a master fail, as far as they fail by one.
#[derive(Clone, Copy, PartialEq, Eq)]
pub(crate) struct PortErrors {
    a: Option<i32>,
    b: Option<i32>,
}

impl PortErrors {
    /// Of ports of which none is known to fail.
    pub(crate) fn none() -> PortErrors {
        PortErrors { a: None, b: None }
    }
}

/// With which errors both ports fail now.
pub(crate) fn errors_of<P: HeardPorts>(ports: &Watched<P>) -> PortErrors {
    PortErrors {
        a: ports.health(Port::A).error,
        b: ports.health(Port::B).error,
    }
}

/// Puts which ports failed that ended a cycle, and with which errors, as far as that is known.
pub(crate) fn put_failed<W: Write>(errors: PortErrors, lines: &mut Lines<'_, W>) -> io::Result<()> {
    match (errors.a, errors.b) {
        (None, None) => lines.text("a port failed"),
        (Some(a), None) => put_failing(Port::A, a, lines),
        (None, Some(b)) => put_failing(Port::B, b, lines),
        (Some(a), Some(b)) => {
            put_failing(Port::A, a, lines)?;
            lines.text(", ")?;
            put_failing(Port::B, b, lines)
        }
    }
}

/// Writes how many sends and receives failed at each port, where one did.
pub(crate) fn put_failures<P: HeardPorts, W: Write>(
    ports: &Watched<P>,
    lines: &mut Lines<'_, W>,
) -> io::Result<()> {
    put_failed_times(
        ports.health(Port::A).failures,
        ports.health(Port::B).failures,
        lines,
    )
}

/// Writes how many sends and receives failed at port A and at port B, where one did.
pub(crate) fn put_failed_times<W: Write>(
    at_a: u64,
    at_b: u64,
    lines: &mut Lines<'_, W>,
) -> io::Result<()> {
    if at_a == 0 && at_b == 0 {
        return Ok(());
    }
    lines.text(format_args!("port A failed {at_a} times, port B {at_b}"))?;
    lines.end()
}

/// Writes what is new of what comes at a port.
fn put_news<W: Write>(
    cycle: u64,
    what: &str,
    port: Port,
    since: &str,
    lines: &mut Lines<'_, W>,
) -> io::Result<()> {
    put_cycle(cycle, lines)?;
    lines.text(what)?;
    lines.text(format_args!(" port {}", PortText(port)))?;
    lines.text(since)?;
    lines.end()
}
