//! `ecat list --stats --csv`: each packet of a capture with the trip that it is of.

ghost use Rattle.std.specs.Prelude.{◌≡◌, ◌≤◌, ◌+◌, ◌++◌, IfSome, OnOk, drop};
ghost use Rattle.std.specs.Option.{option_map};
ghost use Rattle.ecat_list.specs.Line.{lines_from};
ghost use Rattle.ecat_list.specs.TripRows.{IsMoment, direction_of, direction_words, moment_words};
ghost use Rattle.ecat_list.specs.TripRows.{packet_words};
ghost use Rattle.ecat_list.specs.TripRows.{port_words, trip_head_words, trip_of, trip_words, udp_port};
ghost use Rattle.ecat_list.specs.TripRows.{way_words};
ghost use Rattle.ecat_list.specs.declared.line.Style.TheVariants.{Csv};
ghost use Rattle.ecat_list.specs.declared.row.TheConstants.{ROOM};

use crate::line::{Style, parted, put_lines};
use crate::output::{Output, Stop};
use crate::row::Row;
use crate::walk::Steps;
use arrayvec::ArrayString;
use ec_wire::FrameBuf;
use ecat_stamps::date_of;
use ecat_trips::{Fate, Outline, Step};
use std::io::Write;

/// The names of the columns.
const TRIPS_HEAD: &[u8] =
    b"packet,time,direction,trip,port,datagram,command,address,length,wkc,data\n";

/// How many digits a second has behind the point.
const NANOSECONDS: u8 = 9;

/// How many ports a host has.
const PORTS: u64 = 65_536;

/// Which way a packet went, or what it is where it came back of no trip.
#[derive(Clone, Copy)]
pub(crate) enum Direction {
    /// It was sent.
    Sent,
    /// It came back of its trip.
    Returned,
    /// It came back of a trip that was lost.
    Late,
    /// It came back, and nothing that was sent explains it.
    Stray,
}

/// The port of a line where a packet came or went.
#[derive(Clone, Copy)]
pub(crate) enum LinePort {
    /// A UDP port.
    Udp(u16),
    /// The port whose frames have this source address, but for the mark.
    Address([u8; 6]),
}

/// What all rows of a packet begin with.
#[derive(Drop)]
pub(crate) struct TripHead {
    /// Its number.
    pub number: u64,
    /// When it was captured, in UTC, where the capture tells it.
    pub moment: Option<ArrayString<33>>,
    /// Which way it went.
    pub direction: Direction,
    /// The number of the packet with which its trip began, if it is of one.
    pub trip: Option<u64>,
    /// Where it came or went.
    pub port: LinePort,
}

impl Direction {
    /// Which way a packet went by what became of it.
    fn of(fate: &Fate) -> Direction
        ensures { result ≡ direction_of fate.now }
    {
        match fate {
            Fate::Begins | Fate::Replaces(_) | Fate::Second(_) => Direction::Sent,
            Fate::Back(_) | Fate::Closes(_) => Direction::Returned,
            Fate::Late => Direction::Late,
            Fate::Stray => Direction::Stray,
        }
    }

    /// Puts its name in front.
    fn lead(self, row: &mut Row)
        requires { 5 ≤ row.old.from }
        ensures at { row.old.from ≤ row.new.from + 5 }
        ensures written { drop row.new.from row.new.bytes
            ≡ direction_words self ++ drop row.old.from row.old.bytes }
    {
        match self {
            Direction::Sent => row.lead_bytes(b"sent"),
            Direction::Returned => row.lead_bytes(b"back"),
            Direction::Late => row.lead_bytes(b"late"),
            Direction::Stray => row.lead_bytes(b"stray"),
        }
    }
}

impl LinePort {
    /// Where a packet came or went: by UDP the port of the line's end, else the port of the master by which
    /// the frame was sent.
    fn of(packet: &Outline) -> LinePort
        ensures { IfSome packet.now.ports
            (λ ports. result ≡ LinePort.Udp (udp_port packet.now.source.base ports)) }
    {
        let base = packet.source.base;
        match packet.ports {
            Some(ports) if ports.from == ports.to => LinePort::Udp(ports.to),
            Some(_) => LinePort::Udp((base % PORTS) as u16),
            None => {
                let [_, _, a, b, c, d, e, f] = base.to_be_bytes();
                LinePort::Address([a, b, c, d, e, f])
            }
        }
    }

    /// Puts it in front.
    fn lead(self, row: &mut Row)
        requires { 20 ≤ row.old.from }
        ensures at { row.old.from ≤ row.new.from + 20 }
        ensures written { drop row.new.from row.new.bytes
            ≡ port_words self ++ drop row.old.from row.old.bytes }
    {
        match self {
            LinePort::Udp(port) => row.lead_decimal(u64::from(port)),
            LinePort::Address(address) => row.lead_bytes(&parted(address)),
        }
    }
}

/// Puts when a packet was captured in front, if that is known.
fn lead_moment(row: &mut Row, moment: &Option<ArrayString<33>>)
    requires { 40 ≤ row.old.from }
    ensures at { row.old.from ≤ row.new.from + 40 }
    ensures written { drop row.new.from row.new.bytes
        ≡ moment_words (option_map (λ date. date.bytes) moment.now) ++ drop row.old.from row.old.bytes }
{
    match moment {
        Some(date) => row.lead_bytes(date.as_str().as_bytes()),
        None => {}
    }
}

/// Puts the packet with which a trip began in front, if there is one.
fn lead_trip(row: &mut Row, trip: Option<u64>)
    requires { 20 ≤ row.old.from }
    ensures at { row.old.from ≤ row.new.from + 20 }
    ensures written { drop row.new.from row.new.bytes
        ≡ trip_words trip ++ drop row.old.from row.old.bytes }
{
    match trip {
        Some(began) => row.lead_decimal(began),
        None => {}
    }
}

impl TripHead {
    /// What the rows of a packet begin with of which this became.
    fn of(packet: &Outline, fate: &Fate) -> TripHead
        ensures number { result.number ≡ packet.now.number }
        ensures moment { IsMoment packet.now.time (option_map (λ date. date.bytes) result.moment) }
        ensures direction { result.direction ≡ direction_of fate.now }
        ensures trip { result.trip ≡ trip_of packet.now.number fate.now }
        ensures port { IfSome packet.now.ports
            (λ ports. result.port ≡ LinePort.Udp (udp_port packet.now.source.base ports)) }
    {
        let moment = match packet.time {
            Some(nanoseconds) => Some(date_of(nanoseconds, NANOSECONDS)),
            None => None,
        };
        TripHead {
            number: packet.number,
            moment,
            direction: Direction::of(fate),
            trip: trip_of(packet.number, fate),
            port: LinePort::of(packet),
        }
    }

    /// Makes a row of it.
    fn make(&self, row: &mut Row)
        ensures at { ROOM ≤ row.new.from + 110 }
        ensures written { drop row.new.from row.new.bytes ≡ trip_head_words self.now }
    {
        row.clear();
        self.lead_way(row);
        self.lead_packet(row);
    }

    /// Puts the columns that say which packet it is in front.
    fn lead_packet(&self, row: &mut Row)
        requires { 62 ≤ row.old.from }
        ensures at { row.old.from ≤ row.new.from + 62 }
        ensures written { drop row.new.from row.new.bytes
            ≡ packet_words self.now ++ drop row.old.from row.old.bytes }
    {
        row.lead_byte(b',');
        lead_moment(row, &self.moment);
        row.lead_byte(b',');
        row.lead_decimal(self.number);
    }

    /// Puts the columns that say what it is in front.
    fn lead_way(&self, row: &mut Row)
        requires { 48 ≤ row.old.from }
        ensures at { row.old.from ≤ row.new.from + 48 }
        ensures written { drop row.new.from row.new.bytes
            ≡ way_words self.now ++ drop row.old.from row.old.bytes }
    {
        row.lead_byte(b',');
        self.port.lead(row);
        row.lead_byte(b',');
        lead_trip(row, self.trip);
        row.lead_byte(b',');
        self.direction.lead(row);
    }
}

/// The packet with which the trip of a packet began, if it is of one.
fn trip_of(number: u64, fate: &Fate) -> Option<u64>
    ensures { result ≡ trip_of number fate.now }
{
    match fate {
        Fate::Begins | Fate::Replaces(_) => Some(number),
        Fate::Second(began) | Fate::Back(began) => Some(*began),
        Fate::Closes(ended) => Some(ended.trip().first.number),
        Fate::Late | Fate::Stray => None,
    }
}

/// Rows under way.
#[derive(Drop)]
pub(crate) struct TripRows<'a, W> {
    output: Output<'a, W>,
    /// What the rows of a packet begin with.
    head: Row,
    row: Row,
}

impl<'a, W: Write> TripRows<'a, W> {
    /// Of no packet, but for the names of the columns.
    pub(crate) fn new(output: Output<'a, W>) -> Result<TripRows<'a, W>, Stop> {
        let mut output = output;
        output.text.extend_from_slice(TRIPS_HEAD)?;
        Ok(TripRows {
            output,
            head: Row::new(),
            row: Row::new(),
        })
    }

    /// Puts a row for each datagram of a packet.
    fn put(&mut self, head: &TripHead, frame: &FrameBuf) -> Result<(), Stop>
        ensures { OnOk result (self.new.output.text.items ≡ self.old.output.text.items
            ++ lines_from Csv (trip_head_words head.now) 0 frame.now) }
    {
        head.make(&mut self.head);
        let text = &mut self.output.text;
        put_lines(text, &self.head, &mut self.row, Style::Csv, frame)?;
        Ok(())
    }

    /// Writes what is left to write.
    pub(crate) fn finish(&mut self) -> Result<(), Stop> {
        self.output.flush()
    }
}

impl<W: Write> Steps for TripRows<'_, W> {
    fn take(&mut self, packet: &Outline, frame: &FrameBuf, step: &Step) -> Result<(), Stop> {
        match step {
            Step::Ended(_) => Ok(()),
            Step::Taken(_, fate) => {
                self.put(&TripHead::of(packet, fate), frame)?;
                self.output.settle()
            }
        }
    }
}
