//! A task that tells what changed behind the cycles of a master.

ghost use Rattle.std.specs.Prelude.{◌≡◌};

use crate::members::{with_counts, with_slave};
use ec_diag::Located;
use ec_regs::AlState;
use ec_ring::MAX_SLAVES;
use ec_run::Seen;
use ec_services::MasterFault;
use ecat_json::Object;
use ecat_master::{Answer, Asked, Known, Report, Task};
use ecat_text::{Lines, name_at, with_cable};
use std::alloc::{AllocError, Global};
use std::cell::Cell;
use std::io::{self, Write};

/// How many microseconds lie between two objects with counts.
const SECOND: u64 = 1_000_000;

/// How many bytes an object has at the most: a cable's, with 256 slaves that are cut off.
const ROOM: usize = 8_192;

/// Room for what is told, if it is to be.
pub fn told_if(alloc: Global, json: bool) -> Result<Option<Box<Told>>, AllocError> {
    if json {
        Ok(Some(Told::new(alloc)?))
    } else {
        Ok(None)
    }
}

/// What was told last.
#[derive(Drop)]
pub struct Told {
    cable: Option<Located>,
    slaves: [Option<Seen>; MAX_SLAVES],
    /// When counts are told next, in microseconds.
    due: u64,
    room: Option<Vec<u8>>,
}

impl Told {
    /// Nothing was told.
    pub fn new(alloc: Global) -> Result<Box<Told>, AllocError> {
        let told = Told {
            cable: None,
            slaves: [None; MAX_SLAVES],
            due: SECOND,
            room: Some(Vec::with_capacity(alloc, ROOM)?),
        };
        Ok(Box::new(alloc, told)?)
    }

    /// Begins an object of a kind, of a cycle.
    fn object(&mut self, kind: &str, cycle: u64) -> io::Result<Object> {
        match self.room.take() {
            Some(room) => Object::begin(room, kind)?.number("cycle", cycle),
            None => Err(io::Error::from(io::ErrorKind::OutOfMemory)),
        }
    }

    /// Writes an object.
    fn put<W: Write>(&mut self, object: Object, lines: &mut Lines<'_, W>) -> io::Result<()> {
        let line = object.end()?;
        lines.bytes(line.as_slice())?;
        lines.flush()?;
        self.room = Some(line);
        Ok(())
    }

    /// Tells where the cable is broken, where that is another place than was told.
    fn tell_cable<W: Write>(
        &mut self,
        known: &Known<'_, '_, '_>,
        lines: &mut Lines<'_, W>,
    ) -> io::Result<()> {
        let cable = known.cable();
        if self.cable == Some(cable) {
            return Ok(());
        }
        self.cable = Some(cable);
        let object = self.object("cable", cycle_of(known))?;
        let object = with_cable(object, cable, known.line(), lines.names())?;
        self.put(object, lines)
    }

    /// Tells of each slave that it was seen otherwise than was told.
    fn tell_slaves<W: Write>(
        &mut self,
        known: &Known<'_, '_, '_>,
        lines: &mut Lines<'_, W>,
    ) -> io::Result<()> {
        for place in 0..known.line().len().min(MAX_SLAVES) {
            let seen = known.seen_of(place);
            if self.slaves[place] != seen {
                self.slaves[place] = seen;
                self.tell_slave(place, seen, known, lines)?;
            }
        }
        Ok(())
    }

    /// Tells what was seen of the slave at a place.
    fn tell_slave<W: Write>(
        &mut self,
        place: usize,
        seen: Option<Seen>,
        known: &Known<'_, '_, '_>,
        lines: &mut Lines<'_, W>,
    ) -> io::Result<()> {
        let Some(wanted) = known.line().get(place) else {
            return Ok(());
        };
        let object = self.object("slave", cycle_of(known))?;
        let name = name_at(lines.names(), place);
        let object = with_slave(object, place, wanted.station, name, seen)?;
        self.put(object, lines)
    }

    /// Tells how many cycles there were, by their ends, once a second.
    fn tell_counts<W: Write>(
        &mut self,
        now: u64,
        known: &Known<'_, '_, '_>,
        lines: &mut Lines<'_, W>,
    ) -> io::Result<()> {
        if now < self.due {
            return Ok(());
        }
        self.due = now.saturating_add(SECOND);
        let object = self.object("counts", cycle_of(known))?;
        let object = object.number("microseconds", now)?;
        let object = with_counts(object, known.counts(), known.not_in_op())?;
        let object = object.number_if("missed", known.missed())?;
        self.put(object, lines)
    }
}

/// The number of the cycle that was made last, the first one's being 0.
fn cycle_of(known: &Known<'_, '_, '_>) -> u64 {
    known.counts().cycles.saturating_sub(1)
}

/// A task over another one, which writes an object of what changed behind each cycle, where there is room for
/// what was told.
#[derive(Drop)]
pub struct Telling<'v, D> {
    /// The task that it is over.
    pub task: D,
    told: Option<Box<Told>>,
    are_objects: &'v Cell<bool>,
    /// When the last cycle was over, in microseconds.
    now: u64,
}

impl<'v, D: Task> Telling<'v, D> {
    /// This task, which tells what changed where there is room for it; the cell is told while objects are
    /// written.
    pub fn new(task: D, told: Option<Box<Told>>, are_objects: &'v Cell<bool>) -> Telling<'v, D> {
        Telling {
            task,
            told,
            are_objects,
            now: 0,
        }
    }

    /// Tells what changed behind a cycle.
    fn tell<W: Write>(
        &mut self,
        known: &Known<'_, '_, '_>,
        lines: &mut Lines<'_, W>,
    ) -> io::Result<()>
        ensures { self.new.task ≡ self.old.task }
    {
        let Some(told) = &mut self.told else {
            return Ok(());
        };
        told.tell_cable(known, lines)?;
        told.tell_slaves(known, lines)?;
        told.tell_counts(self.now, known, lines)
    }
}

impl<D: Task> Task for Telling<'_, D> {
    ghost listens = { λ before are_others later. D.listens before.task are_others later.task };

    ghost held = { λ telling. D.held telling.task };

    fn listen(&mut self) -> bool {
        self.task.listen()
    }

    fn outputs(&self) -> &[u8] {
        self.task.outputs()
    }

    fn report(&mut self, report: &Report<'_>) {
        self.now = report.at;
        self.task.report(report);
    }

    fn ask(&mut self) -> Option<Asked> {
        self.task.ask()
    }

    fn told(&mut self, answer: Result<Answer, MasterFault>) {
        self.task.told(answer);
    }

    fn leave(&self) -> Option<AlState> {
        self.task.leave()
    }

    fn answer<W: Write>(
        &mut self,
        known: &Known<'_, '_, '_>,
        lines: &mut Lines<'_, W>,
    ) -> io::Result<()> {
        self.task.answer(known, lines)?;
        self.are_objects.set(true);
        let told = self.tell(known, lines);
        self.are_objects.set(false);
        told
    }

    fn show<V: Write>(
        &mut self,
        known: &Known<'_, '_, '_>,
        errors: &mut Lines<'_, V>,
    ) -> io::Result<()> {
        self.task.show(known, errors)
    }
}
