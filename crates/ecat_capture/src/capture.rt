//! The packets of a capture, one after another.
ghost use Rattle.std.specs.Prelude.{◌≡◌, ◌≤◌, [], IfErr, IfOk, Ok, OnErr, OnOk};
ghost use Rattle.ecat_capture.specs.Progress.{BlamesAt, FailsToFind, Finds, Steps, interfaces_behind};
ghost use Rattle.ecat_capture.specs.Progress.{next_number};
ghost use Rattle.ecat_capture.specs.declared.blocks.Interface.{Interface};
ghost use Rattle.ecat_capture.specs.Progress.{number_behind, packet_told, stage_behind, step_of};

use crate::blocks::{Body, Interface};
use crate::classic::Format;
use crate::fault::{CaptureFault, CaptureFaultKind};
use crate::order::Order;
use crate::packet::{Found, Packet};
use crate::pieces::take_piece;
use crate::window::Window;
use ecat_source::Source;
use std::alloc::Global;
use std::marker::Model;

/// What comes next in a capture.
#[derive(Clone, Copy)]
pub(crate) enum Stage {
    /// A header, or a section header.
    Start,
    /// Records of classic pcap.
    Records(Format),
    /// Blocks of pcapng, behind the header of a section with this order.
    Blocks(Order),
    /// Nothing: the capture has ended.
    End,
    /// Nothing: a fault was found.
    Fault,
}

/// A piece of a capture.
#[derive(Clone, Copy)]
pub(crate) enum Piece {
    /// The header of a classic capture.
    Header(Format),
    /// A record of a classic capture.
    Record(Found),
    /// A block of pcapng.
    Block(Body),
    /// None: the capture ends here.
    End,
}

/// What one step took of a capture.
#[derive(Clone, Copy, Debug, PartialEq, Eq)]
pub enum Step {
    /// A packet, whose bytes [`Capture::bytes`] lends until the next step.
    Packet(Packet),
    /// A header, or a block that is no packet.
    Other,
    /// Nothing: the capture ends in front of a record or block, or has ended before.
    End,
}

/// The packets of a capture of any kind, one after another.
///
/// The file is read through a window of what was read and not taken yet, so a capture of any length takes the
/// same memory.
#[derive(Drop)]
pub struct Capture<S: Source> {
    window: Window<S>,
    stage: Stage,
    interfaces: Vec<Interface>,
    number: u64,
}

impl<S: Source> Model for Capture<S> {
    ghost use Rattle.ecat_capture.specs.Progress.{Progress};

    ghost Value = { Progress };

    ghost view = { λ c. record {
      stage = c.stage;
      interfaces = c.interfaces.items;
      input = c.window;
      number = c.number;
    } };
}

impl<S: Source> Capture<S> {
    /// The capture that this source has ahead. Nothing is read yet: the first call of `step` or `next` tells
    /// its kind by the first bytes.
    pub fn new(alloc: Global, source: S) -> Capture<S>
        ensures stage { result.stage ≡ Stage.Start }
        ensures loaded { result.input.loaded ≡ [] }
        ensures rest { result.input.rest ≡ S.remaining source }
        ensures count { result.input.count ≡ S.count source }
        ensures place { result.input.place ≡ 0 }
        ensures number { result.number ≡ 0 }
    {
        Capture {
            window: Window::new(alloc, source),
            stage: Stage::Start,
            interfaces: Vec::new(alloc),
            number: 0,
        }
    }

    /// How often the source has failed.
    pub fn failures(&self) -> u64
        ensures { result ≡ self.now.input.count }
    {
        self.window.failures()
    }

    /// How many bytes of the file were taken.
    pub fn place(&self) -> u64
        ensures { result ≡ self.now.input.place }
    {
        self.window.place()
    }

    /// The stored bytes of the packet that the last call gave, of which there are 65,536 at most.
    pub fn bytes(&self) -> &[u8]
        ensures { result.now ≡ self.now.input.packet }
    {
        self.window.packet()
    }

    /// Takes the next piece of the file, a header, a record or a block, and tells what it was. After a fault
    /// every further call fails, and after the end it is always the end.
    pub fn step(&mut self) -> Result<Step, CaptureFault>
        ensures piece { IfOk result (λ told. Steps self.old self.new told) }
        ensures err { IfErr result (λ f.
            BlamesAt self.old.stage self.old.interfaces self.old.input self.new.input f.kind) }
        ensures place { IfErr result (λ f. f.at ≡ self.old.input.place) }
        ensures faulted { IfErr result (λ f. self.new.stage ≡ Stage.Fault) }
        ensures ended { self.old.stage ≡ Stage.End → result ≡ Ok Step.End }
        ensures failed { self.old.stage ≡ Stage.Fault → IfErr result (λ f. f.kind ≡ CaptureFaultKind.Failed) }
        ensures monotone { self.old.input.count ≤ self.new.input.count }
    {
        let at = self.window.place();
        match take_piece(self.stage, self.interfaces.as_slice(), &mut self.window) {
            Ok(piece) => self.accept(piece, at),
            Err(kind) => {
                self.stage = Stage::Fault;
                Err(CaptureFault { kind, at })
            }
        }
    }

    /// The next packet, or `None` where the capture ends, and from then on. Headers and blocks that are no
    /// packets are passed over. After a fault every further call fails.
    pub fn next(&mut self) -> Result<Option<Packet>, CaptureFault>
        ensures found { IfOk result (λ found. Finds self.old self.new found) }
        ensures err { IfErr result (λ f. FailsToFind self.old self.new f) }
        ensures monotone { self.old.input.count ≤ self.new.input.count }
    {
        for _ in 0..u64::MAX {
            match self.step()? {
                Step::Packet(packet) => return Ok(Some(packet)),
                Step::End => return Ok(None),
                Step::Other => {}
            }
        }
        Err(CaptureFault {
            kind: CaptureFaultKind::NoPacket,
            at: self.place(),
        })
    }

    // Goes on behind a piece, and tells what it was.
    fn accept(&mut self, piece: Piece, at: u64) -> Result<Step, CaptureFault>
        ensures told { IfOk result (λ told. told ≡ step_of self.old.number piece) }
        ensures stage { OnOk result (self.new.stage ≡ stage_behind self.old.stage piece) }
        ensures interfaces { OnOk result
            (self.new.interfaces ≡ interfaces_behind self.old.interfaces piece) }
        ensures number { OnOk result (self.new.number ≡ number_behind self.old.number piece) }
        ensures input { self.new.input ≡ self.old.input }
        ensures end { piece ≡ Piece.End → result ≡ Ok Step.End }
        ensures err { IfErr result (λ f. (f.kind ≡ CaptureFaultKind.NoMemory)
            × (interface : Interface) × (piece ≡ Piece.Block (Body.Interface interface))) }
        ensures place { IfErr result (λ f. f.at ≡ at) }
        ensures faulted { OnErr result (self.new.stage ≡ Stage.Fault) }
    {
        match piece {
            Piece::Header(format) => self.stage = Stage::Records(format),
            Piece::Block(Body::Section(order)) => {
                self.interfaces.clear();
                self.stage = Stage::Blocks(order);
            }
            Piece::Block(Body::Interface(interface)) => {
                if self.interfaces.push(interface).is_err() {
                    self.stage = Stage::Fault;
                    return Err(CaptureFault {
                        kind: CaptureFaultKind::NoMemory,
                        at,
                    });
                }
            }
            Piece::Record(found) | Piece::Block(Body::Packet(found)) => {
                return Ok(Step::Packet(self.count_packet(found)));
            }
            Piece::Block(Body::Other) => {}
            Piece::End => {
                self.stage = Stage::End;
                return Ok(Step::End);
            }
        }
        Ok(Step::Other)
    }

    // Numbers a packet.
    fn count_packet(&mut self, found: Found) -> Packet
        ensures packet { result ≡ packet_told (next_number self.old.number) found }
        ensures number { self.new.number ≡ next_number self.old.number }
        ensures stage { self.new.stage ≡ self.old.stage }
        ensures interfaces { self.new.interfaces ≡ self.old.interfaces }
        ensures input { self.new.input ≡ self.old.input }
    {
        self.number = self.number.saturating_add(1);
        Packet {
            number: self.number,
            time: found.time,
            captured: found.captured,
            original: found.original,
            interface: found.interface,
            link: found.link,
        }
    }
}
