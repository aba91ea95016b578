//! What is told of a capture that was sent to a line once more.

use crate::difference::{Difference, Kind};
use crate::findings::Finding;
use crate::part::{Part, Whom};
use crate::replay::Replay;
use std::fmt::{self, Display, Formatter};
use std::io::{self, Write};

/// Whom a datagram asks, as it is told: with its place and its station where the line has such a slave.
#[derive(Drop)]
struct Asked<'a> {
    replay: &'a Replay,
    part: Part,
}

impl Display for Asked<'_> {
    fn fmt<W: fmt::Write>(&self, f: &mut Formatter<W>) -> fmt::Result {
        let name = self.part.command.name();
        write!(f, "{name} ")?;
        match (
            self.replay.player().slave_of(self.part.whom),
            self.part.whom,
        ) {
            (Some((place, slave)), _) => {
                let station = slave.controller().station();
                write!(f, "slave {place} (0x{station:04x}) ")?;
            }
            (None, Whom::Place(place)) => write!(f, "place {place} ")?,
            (None, Whom::Station(station)) => write!(f, "station 0x{station:04x} ")?,
            (None, Whom::All | Whom::Mapped) => {}
        }
        let address = self.part.address;
        let count = self.part.count;
        match self.part.whom {
            Whom::Mapped => write!(f, "0x{address:08x} {count} bytes"),
            _ => write!(f, "0x{address:04x} {count} bytes"),
        }
    }
}

/// In what two answers differ, as it is told.
#[derive(Drop)]
struct Told {
    difference: Difference,
}

impl Display for Told {
    fn fmt<W: fmt::Write>(&self, f: &mut Formatter<W>) -> fmt::Result {
        let there = self.difference.there;
        let here = self.difference.here;
        match self.difference.kind {
            Kind::Unanswered => write!(f, "wkc {there} there and no answer here"),
            Kind::Counter => write!(f, "wkc {there} there and {here} here"),
            Kind::Passed => write!(f, "slaves passed {there} there and {here} here"),
            Kind::Data(at) => write!(f, "byte {at} is 0x{there:02x} there and 0x{here:02x} here"),
        }
    }
}

impl Replay {
    /// Writes each kind of difference once, with the packet in which was sent what was first answered so, and
    /// how often there was one: `there` is in the capture, `here` at the line.
    pub fn put_findings<W: Write>(&self, out: &mut W) -> io::Result<()> {
        for finding in self.comparison.findings.all() {
            self.put_finding(finding, out)?;
        }
        if self.comparison.findings.more != 0 {
            let more = self.comparison.findings.more;
            writeln!(out, "further differences {more}")?;
        }
        Ok(())
    }

    /// Writes one kind of difference.
    fn put_finding<W: Write>(&self, finding: &Finding, out: &mut W) -> io::Result<()> {
        let packet = finding.packet;
        let asked = Asked {
            replay: self,
            part: finding.part,
        };
        let told = Told {
            difference: finding.difference,
        };
        let times = finding.times;
        if times == 1 {
            writeln!(out, "packet {packet}: {asked}: {told}")
        } else {
            writeln!(out, "packet {packet}: {asked}: {told}, {times} times")
        }
    }

    /// Writes how many frames and datagrams there were, and how many were answered alike.
    pub fn put_sums<W: Write>(&self, out: &mut W) -> io::Result<()> {
        let tally = self.tally();
        let (frames, answered, lost) = (tally.frames, tally.answered, tally.lost);
        let (late, strays) = (tally.late, tally.strays);
        writeln!(
            out,
            "frames {frames} answered {answered} lost {lost} late {late} stray {strays}"
        )?;
        let (datagrams, alike) = (tally.datagrams, tally.alike);
        let (clocks, other) = (tally.clocks, tally.other);
        writeln!(
            out,
            "datagrams {datagrams} alike {alike} of clocks {clocks} not alike {other}"
        )
    }
}
