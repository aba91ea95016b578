//! What a row works on, and its verbs.

use crate::answer::Answer;
use crate::areas::tell_of_areas;
use crate::eeprom::Chip;
use crate::frames::{act_on_frame, datagram_of, form_of, put_fault, tell_of_frame, tell_of_values};
use crate::master::Master;
use crate::objects::{act_on_objects, tell_of_objects, tell_of_sdos};
use crate::records::{
    fmmu_of, manager_of, tell_of_bytes, tell_of_fmmu, tell_of_manager, tell_of_planned,
    tell_of_ranges, tell_of_states, u16_of, u32_of,
};
use crate::ring::Line;
use crate::slave::{act_on_slave, pass, set_fmmu, set_manager, tell_of_slave};
use crate::stands::Stands;
use crate::words::{Fault, Words};
use ec_app::{Objects, Slave};
use ec_regs::{Fmmu, PlannedFmmu, SyncMan};
use ec_ring::Ring;
use ec_wire::{Form, FrameBuf};
use std::alloc::Global;
use std::mem::replace;

/// A slave, its EEPROM, objects that are to be a slave's, a line of mapped slaves, a ring and its master, the
/// last records that lines gave, and the last frame.
#[derive(Drop)]
pub struct Bench {
    slave: Slave,
    chip: Chip,
    objects: Objects,
    stands: Stands,
    line: Line,
    master: Master,
    fmmu: Fmmu,
    manager: SyncMan,
    frame: Option<FrameBuf>,
}

impl Bench {
    /// A slave with the station address 0, a line without slaves, records that are 0, no objects and no
    /// frame; nothing where memory runs out.
    pub fn new(alloc: Global) -> Option<Bench> {
        Some(Bench {
            slave: Slave::new(alloc, 0, Objects::new(), 0, 0).ok()?,
            chip: Chip::new(alloc),
            objects: Objects::new(),
            stands: Stands::new(alloc),
            line: Line::new(alloc)?,
            master: Master::new(alloc),
            fmmu: Fmmu::read(&[0; 16]),
            manager: SyncMan::read(&[0; 8]),
            frame: None,
        })
    }

    /// Does what a line says, and answers.
    pub fn act(&mut self, words: &mut Words<'_>, answer: &mut Answer) {
        let verb = words.word();
        let is_known = self.tell(verb, words, answer)
            || self.set(verb, words)
            || self.pass(verb, words, answer)
            || self.line.set(verb, words)
            || self.stands.set(verb, words)
            || self.set_master(verb, words, answer)
            || self.act_on_ring(verb, words, answer)
            || self.chip.set(verb, words)
            || act_on_objects(verb, &mut self.objects, words, answer)
            || act_on_slave(verb, &mut self.slave, words, answer);
        if !is_known {
            words.refuse(Fault::UnknownVerb);
        }
    }

    /// Verbs that change nothing.
    fn tell(&self, verb: &str, words: &mut Words<'_>, answer: &mut Answer) -> bool {
        tell_of_slave(verb, &self.slave, words, answer)
            || tell_of_areas(verb, self.slave.controller(), words, answer)
            || tell_of_ranges(verb, words, answer)
            || tell_of_states(verb, words, answer)
            || tell_of_bytes(verb, words, answer)
            || tell_of_values(verb, words, answer)
            || tell_of_sdos(verb, words, answer)
            || tell_of_objects(verb, &self.objects, words, answer)
            || tell_of_fmmu(verb, &self.fmmu, words, answer)
            || tell_of_planned(verb, &PlannedFmmu::new(self.fmmu), answer)
            || tell_of_manager(verb, &self.manager, answer)
            || self.line.tell(verb, words, answer)
            || self.stands.tell(verb, words, answer)
            || self.chip.tell(verb, words, answer)
    }

    /// `controller STATION`, and `fmmu N RECORD` and `sm N RECORD` of it; `slave STATE OUTPUTS INPUTS`, of
    /// station 0x1001 with the objects, and `simple OUTPUTS INPUTS`, a simple one in Init; `simple_at
    /// STATION`, one without objects; and a sync manager of one of the four kinds, `outputs_at START LENGTH`
    /// and its like.
    fn set(&mut self, verb: &str, words: &mut Words<'_>) -> bool {
        match verb {
            "controller" => {
                let station = u16_of(words);
                let made = Slave::new(words.alloc(), station, Objects::new(), 0, 0);
                self.take(made.ok(), words);
            }
            "slave" => {
                let state = words.state();
                let objects = self.take_objects();
                let made = Slave::new(words.alloc(), 0x1001, objects, u16_of(words), u16_of(words));
                self.take(made.ok(), words);
                self.slave.set_state(state);
            }
            "simple" => {
                let objects = self.take_objects();
                let made = Slave::simple(
                    words.alloc(),
                    0x1001,
                    objects,
                    u16_of(words),
                    u16_of(words),
                );
                self.take(made.ok(), words);
            }
            "simple_at" => {
                let made = Slave::simple(words.alloc(), u16_of(words), Objects::new(), 0, 0);
                self.take(made.ok(), words);
            }
            "fmmu" => {
                let number = words.number(7) as usize;
                self.fmmu = fmmu_of(words);
                set_fmmu(&mut self.slave, number, &self.fmmu);
            }
            "sm" => {
                let number = words.number(7) as usize;
                self.manager = manager_of(words);
                set_manager(&mut self.slave, number, &self.manager);
            }
            "area" => self.set_area(words),
            "map" => self.set_map(words),
            "stand" => self.stand(words),
            _ => match manager_by(verb, words) {
                Some(manager) => self.manager = manager,
                None => return false,
            },
        }
        true
    }

    /// `area N KIND START LENGTH`: a sync manager of one of the four kinds, given to the slave.
    fn set_area(&mut self, words: &mut Words<'_>) {
        let number = words.number(7) as usize;
        match manager_by(words.word(), words) {
            Some(manager) => {
                self.manager = manager;
                set_manager(&mut self.slave, number, &self.manager);
            }
            None => words.refuse(Fault::BadName),
        }
    }

    /// `map N WAY LOGICAL LENGTH PHYSICAL`: an FMMU of whole bytes that `reads` or `writes`, given to the
    /// slave.
    fn set_map(&mut self, words: &mut Words<'_>) {
        let number = words.number(7) as usize;
        self.fmmu = match words.word() {
            "reads" => Fmmu::reading(u32_of(words), u16_of(words), u16_of(words)),
            "writes" => Fmmu::writing(u32_of(words), u16_of(words), u16_of(words)),
            _ => {
                words.refuse(Fault::BadName);
                return;
            }
        };
        set_fmmu(&mut self.slave, number, &self.fmmu);
    }

    /// `stand`: the slave stands at the end of the line, and the next one has the station address 0.
    fn stand(&mut self, words: &mut Words<'_>) {
        match Slave::new(words.alloc(), 0, Objects::new(), 0, 0) {
            Ok(next) => {
                let slave = replace(&mut self.slave, next);
                self.stands.push(Some(slave), words);
            }
            Err(_) => words.refuse(Fault::NoMemory),
        }
    }

    /// Verbs that give the master what the others have: `on_ring`, the slaves that stand make the ring, over
    /// which its frames travel; `work`, the items make its work; `weather`, the next frame of a cycle goes
    /// out in that which is set; and `under`, the next trip of its ports does.
    fn set_master(&mut self, verb: &str, words: &mut Words<'_>, answer: &mut Answer) -> bool {
        match verb {
            "on_ring" => {
                match Ring::new(self.stands.take_slaves(words.alloc())) {
                    Ok(ring) => self.line.put_ring(Some(ring)),
                    Err(_) => words.refuse(Fault::OutOfRange),
                }
                self.master.open();
            }
            "work" => self.master.push_items(self.stands.items(), answer),
            "weather" => self.master.push_weather(self.line.weather(), words),
            "under" => self.master.push_under(self.line.weather(), words),
            _ => return false,
        }
        true
    }

    /// Verbs of the master on the ring.
    fn act_on_ring(&mut self, verb: &str, words: &mut Words<'_>, answer: &mut Answer) -> bool {
        match self.line.take_ring(words.alloc()) {
            Some(ring) => {
                let (ring, is_known) = self.master.act(verb, ring, words, answer);
                self.line.put_ring(ring);
                is_known
            }
            None => false,
        }
    }

    /// Takes a slave, where there was memory for it.
    fn take(&mut self, made: Option<Slave>, words: &mut Words<'_>) {
        match made {
            Some(slave) => self.slave = slave,
            None => words.refuse(Fault::NoMemory),
        }
    }

    /// The objects, which are then none.
    fn take_objects(&mut self) -> Objects {
        replace(&mut self.objects, Objects::new())
    }

    /// `frame BYTES`, the frame that is sent; `read FORM BYTES`, which answers a fault; `of DATAGRAM`, a
    /// frame of one; `pass BYTES`, a frame as it is left by the controller; `serve`, its EEPROM answers; and
    /// what is done with the last frame: `onward` passes it, `counter K` is of one of its datagrams, it is
    /// read, changed, sent and joined.
    fn pass(&mut self, verb: &str, words: &mut Words<'_>, answer: &mut Answer) -> bool {
        match verb {
            "frame" => self.frame = frame_of(Form::Ethernet, words),
            "read" => self.read(words, answer),
            "of" => self.frame = Some(FrameBuf::of(&datagram_of(words))),
            "pass" => {
                self.frame = frame_of(Form::Ethernet, words);
                self.pass_frame(words, answer);
            }
            "onward" => self.pass_frame(words, answer),
            "serve" => self.chip.serve(&mut self.slave),
            "counter" => tell_counter(&self.frame, words, answer),
            _ => return self.on_frame(verb, words, answer),
        }
        true
    }

    /// `read FORM BYTES`: `ok`, or the fault of bytes that are no frame and its place.
    fn read(&mut self, words: &mut Words<'_>, answer: &mut Answer) {
        let form = form_of(words);
        match FrameBuf::read(words.bytes_to("").as_slice(), form) {
            Ok(frame) => {
                self.frame = Some(frame);
                put_fault(answer, None);
            }
            Err(fault) => put_fault(answer, Some(fault)),
        }
    }

    /// Does what is to be done with the last frame, where there is one.
    fn on_frame(&mut self, verb: &str, words: &mut Words<'_>, answer: &mut Answer) -> bool {
        match self.frame.take() {
            Some(frame) => {
                let mut frame = frame;
                let is_known = tell_of_frame(verb, &frame, words, answer)
                    || self.line.send(verb, &frame, words, answer)
                    || act_on_frame(verb, &mut frame, words, answer);
                self.frame = Some(frame);
                is_known
            }
            None => false,
        }
    }

    /// Passes the last frame.
    fn pass_frame(&mut self, words: &mut Words<'_>, answer: &mut Answer) {
        match self.frame.take() {
            Some(frame) => {
                let mut frame = frame;
                pass(&mut self.slave, &mut frame);
                answer.bytes(frame.bytes());
                self.frame = Some(frame);
            }
            None => words.refuse(Fault::NoFrame),
        }
    }
}

/// A sync manager of the kind that has this name, START LENGTH.
fn manager_by(name: &str, words: &mut Words<'_>) -> Option<SyncMan> {
    Some(match name {
        "mailbox_from_master" => SyncMan::mailbox_from_master(u16_of(words), u16_of(words)),
        "mailbox_to_master" => SyncMan::mailbox_to_master(u16_of(words), u16_of(words)),
        "outputs_at" => SyncMan::outputs(u16_of(words), u16_of(words)),
        "inputs_at" => SyncMan::inputs(u16_of(words), u16_of(words)),
        _ => return None,
    })
}

/// The frame of these bytes, refused where they are none.
pub fn frame_of(form: Form, words: &mut Words<'_>) -> Option<FrameBuf> {
    match FrameBuf::read(words.bytes_to("").as_slice(), form) {
        Ok(frame) => Some(frame),
        Err(_) => {
            words.refuse(Fault::NoFrame);
            None
        }
    }
}

/// `counter K`: the working counter of a datagram of the last frame.
fn tell_counter(frame: &Option<FrameBuf>, words: &mut Words<'_>, answer: &mut Answer) {
    let k = words.number(127) as usize;
    match frame {
        Some(frame) => {
            if k < frame.count() {
                answer.put(frame.counter(k));
            } else {
                words.refuse(Fault::OutOfRange);
            }
        }
        None => words.refuse(Fault::NoFrame),
    }
}
