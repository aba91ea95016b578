//! What is printed of a cable: the copies of a frame that came back, which links are down, who is missing.

ghost use Rattle.std.specs.Prelude.{◌≡◌, Some, ℕ};
ghost use Rattle.ec_esc.specs.State.{word_at};
ghost use Rattle.ec_regs.specs.declared.registers.TheConstants.{STATION_ADDRESS};
ghost use Rattle.ecat_text.specs.Cables.{arrived_words, break_of, break_status, break_words, copy_words};
ghost use Rattle.ecat_text.specs.Cables.{end_at, end_before, name_at, name_words, slave_words};
ghost use Rattle.ecat_text.specs.Cables.{end_words, missing_of, missing_words, places_words, port_words};
ghost use Rattle.ecat_text.specs.Cables.{station_words};

use crate::lines::Lines;
use crate::status::{GOOD, REFUSED};
use ec_app::Slave;
use ec_diag::{CutOff, Heard, Located};
use ec_ring::{Arrival, Arrivals, Port};
use ec_run::Wanted;
use ec_wire::FrameBuf;
use std::fmt;
use std::io::{self, Write};

/// How many stations are named of those that are cut off.
const MOST_STATIONS: usize = 8;

/// What has a station address, by which a person knows it (IEC 61158-4-12, configured station address).
pub trait Stationed {
    /// Its station address.
    ghost station: { Self → ℕ };

    /// Its station address.
    fn station(&self) -> u16
        ensures { result ≡ station self.now };
}

impl Stationed for Slave {
    ghost station = { λ slave. word_at slave.controller.memory STATION_ADDRESS };

    fn station(&self) -> u16 {
        self.controller().station()
    }
}

impl Stationed for Wanted {
    ghost station = { λ wanted. wanted.station };

    fn station(&self) -> u16 {
        self.station
    }
}

/// A port of the master, as it is printed.
#[derive(Drop)]
pub struct PortText(pub Port);

impl fmt::Display for PortText {
    ghost output = { λ port. Some (port_words port.0) };

    fn fmt<W: fmt::Write>(&self, f: &mut fmt::Formatter<W>) -> fmt::Result {
        match self.0 {
            Port::A => write!(f, "A"),
            Port::B => write!(f, "B"),
        }
    }
}

/// What is heard of a copy of a frame, as it is printed.
#[derive(Drop)]
struct CopyText {
    from: Port,
    heard: Option<Heard>,
}

impl fmt::Display for CopyText {
    ghost output = { λ copy. Some (copy_words copy) };

    fn fmt<W: fmt::Write>(&self, f: &mut fmt::Formatter<W>) -> fmt::Result {
        let from = PortText(self.from);
        match self.heard {
            None => write!(f, "{from} lost"),
            Some(heard) => {
                let at = PortText(heard.at);
                let count = heard.count;
                write!(f, "{from} back at {at} after {count}")
            }
        }
    }
}

/// What is heard at a port, whichever copy it is of, as it is printed.
#[derive(Drop)]
struct ArrivedText {
    at: Port,
    heard: Option<Heard>,
}

impl fmt::Display for ArrivedText {
    ghost output = { λ arrived. Some (arrived_words arrived) };

    fn fmt<W: fmt::Write>(&self, f: &mut fmt::Formatter<W>) -> fmt::Result {
        let at = PortText(self.at);
        match self.heard {
            None => write!(f, "nothing at {at}"),
            Some(heard) => {
                let count = heard.count;
                write!(f, "at {at} after {count}")
            }
        }
    }
}

/// A station address, as it is printed.
#[derive(Drop)]
struct Station(u16);

impl fmt::Display for Station {
    ghost output = { λ station. Some (station_words station.0) };

    #[tactic(auto, unfolding(crate::specs::Cables::station_words))]
    fn fmt<W: fmt::Write>(&self, f: &mut fmt::Formatter<W>) -> fmt::Result {
        let station = self.0;
        write!(f, "0x{station:04x}")
    }
}

/// The name of a slave behind a space, as it is printed; nothing where it is empty.
#[derive(Clone, Copy)]
struct NameText<'a>(&'a str);

impl fmt::Display for NameText<'_> {
    ghost output = { λ text. Some (name_words text.0.now) };

    #[tactic(auto, unfolding(crate::specs::Cables::name_words))]
    fn fmt<W: fmt::Write>(&self, f: &mut fmt::Formatter<W>) -> fmt::Result {
        let name = self.0;
        if name.is_empty() {
            Ok(())
        } else {
            write!(f, " {name}")
        }
    }
}

/// An end of a link, as it is printed.
#[derive(Clone, Copy)]
pub enum End<'a> {
    /// A port of the master.
    AtPort(Port),
    /// The slave at this place of the line, with its station address, and its name, which is empty where it
    /// has none.
    AtSlave(usize, u16, &'a str),
}

impl<'a> End<'a> {
    /// The slave at a place of a line, with its station address, where the slaves have these names.
    pub fn at_slave(place: usize, station: u16, names: &'a [String]) -> End<'a>
        ensures { end_words result ≡ slave_words place (name_at names.now place) station }
    {
        End::AtSlave(place, station, name_at(names, place))
    }
}

/// The name of the slave at a place, where the slaves have these names; an empty one where it has none.
pub fn name_at(names: &[String], place: usize) -> &str
    ensures { result.now ≡ name_at names.now place }
{
    match names.get(place) {
        Some(name) => name.as_str(),
        None => "",
    }
}

impl fmt::Display for End<'_> {
    ghost output = { λ end. Some (end_words end) };

    fn fmt<W: fmt::Write>(&self, f: &mut fmt::Formatter<W>) -> fmt::Result {
        match self {
            End::AtPort(port) => {
                let port = PortText(*port);
                write!(f, "port {port}")
            }
            End::AtSlave(place, station, name) => {
                let name = NameText(name);
                let station = Station(*station);
                write!(f, "slave {place}{name} ({station})")
            }
        }
    }
}

/// Slaves that follow each other on the line, from the first to the last, by their places.
#[derive(Clone, Copy)]
pub struct Places {
    first: usize,
    last: usize,
}

impl fmt::Display for Places {
    ghost output = { λ places. Some (places_words places) };

    fn fmt<W: fmt::Write>(&self, f: &mut fmt::Formatter<W>) -> fmt::Result {
        let first = self.first;
        let last = self.last;
        if first == last {
            write!(f, "slave {first}")
        } else {
            write!(f, "slaves {first}..{last}")
        }
    }
}

/// Which links are down, as it is printed; where slaves are cut off, as far as their station addresses.
#[derive(Clone, Copy)]
enum BreakText<'a> {
    Whole,
    One(usize, End<'a>, End<'a>),
    Two(usize, usize, Places),
    First(usize),
    Last(usize),
    Unknown,
    Changed,
    Swapped,
}

impl fmt::Display for BreakText<'_> {
    ghost output = { λ text. Some (break_words text) };

    fn fmt<W: fmt::Write>(&self, f: &mut fmt::Formatter<W>) -> fmt::Result {
        match self {
            BreakText::Whole => write!(f, "whole"),
            BreakText::One(link, before, behind) => {
                write!(f, "link {link} down: between {before} and {behind}")
            }
            BreakText::Two(first, last, missing) => {
                write!(f, "links {first} and {last} down: {missing} cut off")
            }
            BreakText::First(link) => {
                write!(f, "link {link} is the first down, behind it unknown")
            }
            BreakText::Last(link) => {
                write!(f, "link {link} is the last down, before it unknown")
            }
            BreakText::Unknown => write!(f, "no copy came back: nothing known"),
            BreakText::Changed => write!(
                f,
                "no one set of links gives these copies: the links changed between them"
            ),
            BreakText::Swapped => write!(f, "ports A and B are swapped"),
        }
    }
}

/// Which slaves of a line are missing, as far as copies tell.
#[derive(Clone, Copy)]
pub enum Missing {
    /// None of them.
    Nobody,
    /// These are reached by no copy.
    CutOff(Places),
    /// Of these nothing is known.
    NotTold(Places),
}

impl fmt::Display for Missing {
    ghost output = { λ missing. Some (missing_words missing) };

    fn fmt<W: fmt::Write>(&self, f: &mut fmt::Formatter<W>) -> fmt::Result {
        match self {
            Missing::Nobody => Ok(()),
            Missing::CutOff(places) => write!(f, ", {places} cut off"),
            Missing::NotTold(places) => write!(f, ", {places} unknown"),
        }
    }
}

/// Which of so many slaves are missing.
pub fn missing_of(slaves: usize, cut_off: CutOff) -> Missing
    ensures { result ≡ missing_of slaves cut_off }
{
    let all_but_one = slaves.saturating_sub(1);
    match cut_off {
        CutOff::Nobody => Missing::Nobody,
        CutOff::Places(first, last) => Missing::CutOff(Places { first, last }),
        CutOff::PerhapsFrom(first) => Missing::NotTold(Places {
            first,
            last: all_but_one,
        }),
        CutOff::PerhapsBelow(k) => Missing::NotTold(Places {
            first: 0,
            last: k.saturating_sub(1),
        }),
        CutOff::NotTold if slaves == 0 => Missing::Nobody,
        CutOff::NotTold => Missing::NotTold(Places {
            first: 0,
            last: all_but_one,
        }),
    }
}

/// Prints what came back of a frame: a line with both copies.
pub fn print_copies<W: Write>(
    sent: &FrameBuf,
    came: &Arrivals,
    lines: &mut Lines<'_, W>,
) -> io::Result<()> {
    lines.text(CopyText {
        from: Port::A,
        heard: heard(sent, &came.a),
    })?;
    lines.text(", ")?;
    lines.text(CopyText {
        from: Port::B,
        heard: heard(sent, &came.b),
    })?;
    lines.end()
}

/// Prints what arrived at the master's ports of a frame, where it is not known which copy it is: a line with
/// both ports.
pub fn print_arrived<W: Write>(
    sent: &FrameBuf,
    came: &Arrivals,
    lines: &mut Lines<'_, W>,
) -> io::Result<()> {
    lines.text(ArrivedText {
        at: Port::A,
        heard: heard(sent, &came.a),
    })?;
    lines.text(", ")?;
    lines.text(ArrivedText {
        at: Port::B,
        heard: heard(sent, &came.b),
    })?;
    lines.end()
}

/// Puts that the ports of a master are swapped.
pub fn put_swapped<W: Write>(lines: &mut Lines<'_, W>) -> io::Result<()> {
    lines.text(BreakText::Swapped)
}

/// Prints a line that says that the ports of a master are swapped, and answers the status.
pub fn print_swapped<W: Write>(lines: &mut Lines<'_, W>) -> io::Result<u8> {
    put_swapped(lines)?;
    lines.end()?;
    Ok(REFUSED)
}

/// Are these the copies of a frame over a whole ring of so many slaves whose ports are swapped? What arrived
/// at port A was counted by all slaves, and what arrived at port B by none.
pub fn are_swapped(slaves: usize, sent: &FrameBuf, came: &Arrivals) -> bool {
    match (heard(sent, &came.a), heard(sent, &came.b)) {
        (Some(one), Some(other)) => {
            slaves != 0 && (is_swapped(slaves, one, other) || is_swapped(slaves, other, one))
        }
        _ => false,
    }
}

/// Did one copy arrive at port A that so many slaves counted, and another one at port B that none did?
fn is_swapped(slaves: usize, at_a: Heard, at_b: Heard) -> bool {
    has_come(at_a, Port::A, slaves) && has_come(at_b, Port::B, 0)
}

/// Did a copy arrive at this port that so many slaves counted, and turn round at none of them?
fn has_come(copy: Heard, at: Port, slaves: usize) -> bool {
    copy.at == at && !copy.turned && usize::from(copy.count) == slaves
}

/// What is heard of a copy of a frame, unless it was lost.
pub(crate) fn heard(sent: &FrameBuf, copy: &Option<Arrival>) -> Option<Heard> {
    match copy {
        Some(arrival) => Heard::of(sent, &arrival.frame, arrival.at),
        None => None,
    }
}

/// Prints a line that says where the cable of a line is broken and who is cut off, and answers the status.
pub fn print_break<W: Write>(
    located: Located,
    line: &[Slave],
    lines: &mut Lines<'_, W>,
) -> io::Result<u8> {
    put_break(located, line, lines)?;
    lines.end()?;
    Ok(break_status(located))
}

/// Puts where the cable of a line is broken and who is cut off.
pub fn put_break<S: Stationed, W: Write>(
    located: Located,
    line: &[S],
    lines: &mut Lines<'_, W>,
) -> io::Result<()> {
    let names = lines.names();
    lines.text(break_of(line, names, located))?;
    match located.cut_off() {
        CutOff::Places(first, last) => {
            lines.text(" (")?;
            put_stations(line, Places { first, last }, lines)?;
            lines.text(")")
        }
        _ => Ok(()),
    }
}

/// Puts the station addresses of these slaves, each with its name where it has one, of the first
/// `MOST_STATIONS` if there are more.
fn put_stations<S: Stationed, W: Write>(
    line: &[S],
    places: Places,
    lines: &mut Lines<'_, W>,
) -> io::Result<()> {
    let names = lines.names();
    for (place, slave) in line.iter().enumerate() {
        if place < places.first || places.last < place {
            continue;
        }
        if place > places.first {
            lines.text(", ")?;
        }
        if place - places.first == MOST_STATIONS {
            return lines.text("..");
        }
        lines.text(Station(slave.station()))?;
        lines.text(NameText(name_at(names, place)))?;
    }
    Ok(())
}

/// What is known of the links of a line, with the ends of a link that is down.
fn break_of<'a, S: Stationed>(line: &[S], names: &'a [String], located: Located) -> BreakText<'a>
    ensures { break_words result ≡ break_of S.station line.now names.now located }
{
    match located {
        Located::Unknown => BreakText::Unknown,
        Located::Whole => BreakText::Whole,
        Located::One(link) => {
            BreakText::One(
                link,
                end_before(line, names, link),
                end_at(Port::B, line, names, link),
            )
        }
        Located::Between(first, last) => BreakText::Two(
            first,
            last,
            Places {
                first,
                last: last.saturating_sub(1),
            },
        ),
        Located::First(link) => BreakText::First(link),
        Located::Last(link) => BreakText::Last(link),
        Located::Changed => BreakText::Changed,
    }
}

/// The exit status: that of a refusal where anything is down or unknown.
pub(crate) fn break_status(located: Located) -> u8
    ensures { result ≡ break_status located }
{
    match located {
        Located::Whole => GOOD,
        _ => REFUSED,
    }
}

/// The end of a link that is nearer to port A.
pub(crate) fn end_before<'a, S: Stationed>(line: &[S], names: &'a [String], link: usize) -> End<'a>
    ensures { end_words result ≡ end_before S.station line.now names.now link }
{
    if link == 0 {
        End::AtPort(Port::A)
    } else {
        end_at(Port::B, line, names, link - 1)
    }
}

/// The end of a link at the slave of this place, or at a port where the line has no such slave.
pub(crate) fn end_at<'a, S: Stationed>(
    port: Port,
    line: &[S],
    names: &'a [String],
    place: usize,
) -> End<'a>
    ensures { end_words result ≡ end_at S.station port line.now names.now place }
{
    match line.get(place) {
        Some(slave) => End::at_slave(place, slave.station(), names),
        None => End::AtPort(port),
    }
}
