//! What a scene says that is accepted and yet seldom meant.

use crate::buffers::buffers_meet;
use crate::items::{fmmus_of, unserved, without_room};
use crate::mapping::{area_differs, fewer_mapped, unmapped};
use crate::oddity::{Oddity, ProcessData};
use crate::records::records_of;
use bitflags::Flags;
use ec_app::Objects;
use ec_app::roles::{
    ANSWER_MAILBOX, INPUTS, OUTPUTS, REQUEST_MAILBOX, is_answer_mailbox, is_request_mailbox,
};
use ec_check::Records;
use ec_map::Item;
use ec_regs::registers::{FMMU_COUNT, SYNC_MANAGER_COUNT};
use ec_regs::{Fmmu, SyncMan};
use ecat_scene::{
    Scene, SceneFault, StartupObject, Stop, control_of, number, object_of, put_words, startup_of,
    sync_man_of, text_of,
};
use std::alloc::{AllocError, Global};
use std::fmt;

/// What of a scene an odd line is about, by its number, from 0.
#[derive(Clone, Copy)]
enum Subject {
    /// A slave.
    Slave(usize),
    /// An item.
    Item(usize),
}

/// One line of a scene that is accepted and yet seldom meant; it is printed as a sentence.
#[derive(Clone, Copy)]
pub struct OddLine {
    line: usize,
    subject: Subject,
    oddity: Oddity,
}

impl OddLine {
    /// The number of the line of the scene, from 1.
    pub(crate) fn line(&self) -> usize {
        self.line
    }

    /// The slave and the item that it is about, of which one is there.
    pub(crate) fn subjects(&self) -> (Option<u64>, Option<u64>) {
        match self.subject {
            Subject::Slave(slave) => (Some(slave as u64), None),
            Subject::Item(item) => (None, Some(item as u64)),
        }
    }

    /// What is odd.
    pub(crate) fn oddity(&self) -> Oddity {
        self.oddity
    }
}

impl fmt::Display for OddLine {
    fn fmt<W: fmt::Write>(&self, f: &mut fmt::Formatter<W>) -> fmt::Result {
        let line = self.line;
        let oddity = self.oddity;
        match self.subject {
            Subject::Slave(slave) => write!(f, "line {line}: slave {slave}: {oddity}"),
            Subject::Item(item) => write!(f, "line {line}: item {item}: {oddity}"),
        }
    }
}

/// What the lines of one slave have said so far; the number of a line is 0 where none has.
#[derive(Drop)]
struct SlaveLines {
    sync_managers: [SyncMan; SYNC_MANAGER_COUNT],
    of_sync_managers: [usize; SYNC_MANAGER_COUNT],
    of_fmmus: [usize; FMMU_COUNT],
    of_areas: usize,
    output_length: u16,
    input_length: u16,
    of_state: usize,
    of_object: usize,
    objects: Objects,
    startup: Vec<StartupLine>,
}

/// A line with a startup object.
#[derive(Clone, Copy)]
struct StartupLine {
    line: usize,
    object: StartupObject,
}

impl SlaveLines {
    fn new(alloc: Global) -> SlaveLines {
        let unset = SyncMan {
            start: 0,
            length: 0,
            control: 0,
            status: 0,
            activate: 0,
            pdi: 0,
        };
        SlaveLines {
            sync_managers: [unset; SYNC_MANAGER_COUNT],
            of_sync_managers: [0; SYNC_MANAGER_COUNT],
            of_fmmus: [0; FMMU_COUNT],
            of_areas: 0,
            output_length: 0,
            input_length: 0,
            of_state: 0,
            of_object: 0,
            objects: Objects::new(),
            startup: Vec::new(alloc),
        }
    }

    /// Are both mailboxes there?
    fn has_mailboxes(&self) -> bool {
        is_request_mailbox(&self.sync_managers[REQUEST_MAILBOX])
            && is_answer_mailbox(&self.sync_managers[ANSWER_MAILBOX])
    }

    /// What is odd about the write of a startup object, if anything is.
    fn oddity_of(&self, object: &StartupObject) -> Option<Oddity> {
        if !self.has_mailboxes() {
            return Some(Oddity::StartsWithoutMailboxes);
        }
        match self.objects.get(object.index, object.sub) {
            None => Some(Oddity::StartsWithNone),
            Some((rights, _)) if !rights.may_write() => Some(Oddity::StartsReadOnly),
            Some((_, value)) if value.size() != object.value.size() => Some(
                Oddity::StartsOtherSize,
            ),
            Some(_) => None,
        }
    }
}

/// The lines of a scene as far as they have been looked at.
#[derive(Drop)]
struct Linter {
    alloc: Global,
    /// The number of the line that is looked at, from 1.
    line: usize,
    /// How many slaves have begun.
    slaves: usize,
    slave: SlaveLines,
    /// By what the slaves are mapped; none where the text is no scene.
    records: Vec<Records>,
    /// The lines of the items, in their order.
    items: Vec<usize>,
    found: Vec<OddLine>,
}

/// What is odd about the lines of a scene that is accepted, in the order of the slaves; and behind that, of
/// the items, in their order. Of a text that is no scene the lines alone are looked at, not the mapping.
pub fn odd_lines(alloc: Global, text: &[u8]) -> Result<Vec<OddLine>, AllocError> {
    match Scene::read(alloc, text) {
        Ok(scene) => {
            let records = records_of(alloc, scene.slaves.as_slice())?;
            odd_of(alloc, text, records, scene.items.as_slice())
        }
        Err(SceneFault::NoMemory) => Err(AllocError),
        Err(_) => odd_of(alloc, text, Vec::new(alloc), &[]),
    }
}

/// What is odd about the lines of a text, whose slaves have these records, and about the items.
fn odd_of(
    alloc: Global,
    text: &[u8],
    records: Vec<Records>,
    items: &[Item],
) -> Result<Vec<OddLine>, AllocError> {
    let mut linter = Linter {
        alloc,
        line: 0,
        slaves: 0,
        slave: SlaveLines::new(alloc),
        records,
        items: Vec::new(alloc),
        found: Vec::new(alloc),
    };
    let mut words = Vec::new(alloc);
    for line in text.split(|byte| *byte == b'\n') {
        linter.take(line, &mut words)?;
    }
    linter.end_slave()?;
    linter.end_items(items)?;
    Ok(linter.found)
}

impl Linter {
    /// Looks at one line, whose words take the place of those of the line before.
    fn take<'a>(&mut self, line: &'a [u8], words: &mut Vec<&'a [u8]>) -> Result<(), AllocError> {
        self.line = self.line.saturating_add(1);
        if line.starts_with(b"#") {
            return Ok(());
        }
        put_words(words, line)?;
        let [first, rest @ ..] = words.as_slice() else {
            return Ok(());
        };
        match text_of(first) {
            "slave" => self.begin_slave(),
            "sm" => self.sync_manager(rest),
            "fmmu" => self.fmmu(rest),
            "areas" => self.areas(rest),
            "state" => self.state(),
            "object" => {
                self.object(rest);
                Ok(())
            }
            "startup" => self.startup(rest),
            "lrd" | "lwr" | "lrw" | "brd" | "fprd" | "fpwr" => {
                self.items.push(self.line)?;
                Ok(())
            }
            _ => Ok(()),
        }
    }

    /// Keeps an oddity of a line.
    fn keep(&mut self, line: usize, oddity: Oddity) -> Result<(), AllocError> {
        let subject = Subject::Slave(self.slaves.saturating_sub(1));
        self.found.push(OddLine {
            line,
            subject,
            oddity,
        })?;
        Ok(())
    }

    /// Keeps what is found odd of a line, if anything is.
    fn keep_found(&mut self, line: usize, found: Option<Oddity>) -> Result<(), AllocError> {
        match found {
            Some(oddity) => self.keep(line, oddity),
            None => Ok(()),
        }
    }

    /// Ends a slave and begins the next one.
    fn begin_slave(&mut self) -> Result<(), AllocError> {
        self.end_slave()?;
        self.slaves = self.slaves.saturating_add(1);
        self.slave = SlaveLines::new(self.alloc);
        Ok(())
    }

    /// What is odd about a slave whose lines are all known.
    fn end_slave(&mut self) -> Result<(), AllocError> {
        self.end_area(OUTPUTS, ProcessData::Outputs, self.slave.output_length)?;
        self.end_area(INPUTS, ProcessData::Inputs, self.slave.input_length)?;
        let object = self.slave.of_object;
        if object != 0 && !self.slave.has_mailboxes() {
            self.keep(object, Oddity::NoMailboxes)?;
        }
        self.end_startup()?;
        self.end_mapping()
    }

    /// What is odd about the length that the application has of process data, where one is said, and the
    /// sync manager that should guard them, where it is set.
    fn end_area(
        &mut self,
        number: usize,
        kind: ProcessData,
        wanted: u16,
    ) -> Result<(), AllocError> {
        let said = self.slave.of_areas;
        if said == 0 || number >= SYNC_MANAGER_COUNT || self.slave.of_sync_managers[number] == 0 {
            return Ok(());
        }
        let manager = self.slave.sync_managers[number];
        self.keep_found(said, area_differs(number, kind, &manager, wanted))
    }

    /// What is odd about how a slave is mapped whose lines are all known.
    fn end_mapping(&mut self) -> Result<(), AllocError> {
        let Some(records) = self.records.as_slice().get(self.slaves.saturating_sub(1)) else {
            return Ok(());
        };
        let fmmus = fmmus_of(records);
        self.end_lengths(&fmmus)?;
        for number in 0..SYNC_MANAGER_COUNT {
            self.end_sync_manager(number, &fmmus)?;
        }
        Ok(())
    }

    /// What is odd about how many bytes of the application's process data are mapped.
    fn end_lengths(&mut self, fmmus: &[Fmmu]) -> Result<(), AllocError> {
        let line = self.slave.of_areas;
        let outputs = self.slave.sync_managers[OUTPUTS];
        let inputs = self.slave.sync_managers[INPUTS];
        let taken = self.slave.output_length;
        let given = self.slave.input_length;
        self.keep_found(
            line,
            fewer_mapped(ProcessData::Outputs, fmmus, &outputs, taken),
        )?;
        self.keep_found(
            line,
            fewer_mapped(ProcessData::Inputs, fmmus, &inputs, given),
        )
    }

    /// What is odd about how the area of a sync manager is mapped, and about what begins behind it.
    fn end_sync_manager(&mut self, number: usize, fmmus: &[Fmmu]) -> Result<(), AllocError> {
        if number >= SYNC_MANAGER_COUNT {
            return Ok(());
        }
        let line = self.slave.of_sync_managers[number];
        let manager = self.slave.sync_managers[number];
        self.keep_found(
            line,
            unmapped(number, ProcessData::Outputs, fmmus, &manager),
        )?;
        self.keep_found(line, unmapped(number, ProcessData::Inputs, fmmus, &manager))?;
        let met = buffers_meet(&self.slave.sync_managers, &manager);
        self.keep_found(line, met)
    }

    /// What is odd about the items of the scene.
    fn end_items(&mut self, items: &[Item]) -> Result<(), AllocError> {
        for (k, item) in items.iter().enumerate() {
            if let Some(oddity) = unserved(self.records.as_slice(), item) {
                self.keep_item(k, oddity)?;
            }
            if let Some(oddity) = without_room(item) {
                self.keep_item(k, oddity)?;
            }
        }
        Ok(())
    }

    /// Keeps what is odd about an item.
    fn keep_item(&mut self, item: usize, oddity: Oddity) -> Result<(), AllocError> {
        let line = self.items.as_slice().get(item).copied().unwrap_or(0);
        self.found.push(OddLine {
            line,
            subject: Subject::Item(item),
            oddity,
        })?;
        Ok(())
    }

    /// What is odd about the startup objects of a slave whose lines are all known.
    fn end_startup(&mut self) -> Result<(), AllocError> {
        for k in 0..self.slave.startup.len() {
            let Some(one) = self.slave.startup.as_slice().get(k) else {
                return Ok(());
            };
            let StartupLine { line, object } = *one;
            if let Some(oddity) = self.slave.oddity_of(&object) {
                self.keep(line, oddity)?;
            }
        }
        Ok(())
    }

    /// `object INDEX SUB SIZE RIGHTS VALUE`
    fn object(&mut self, words: &[&[u8]]) {
        let [index, sub, size, rights, value] = words else {
            return;
        };
        self.slave.of_object = self.line;
        if let Ok((index, sub, rights, value)) = object_of(index, sub, size, rights, value) {
            let _ = self.slave.objects.add(index, sub, rights, value);
        }
    }

    /// `startup INDEX SUB BYTES`
    fn startup(&mut self, words: &[&[u8]]) -> Result<(), AllocError> {
        let [index, sub, row] = words else {
            return Ok(());
        };
        let line = self.line;
        match startup_of(self.alloc, index, sub, row) {
            Ok(object) => {
                self.slave.startup.push(StartupLine { line, object })?;
                Ok(())
            }
            Err(Stop::Fault(_)) => Ok(()),
            Err(Stop::NoMemory) => Err(AllocError),
        }
    }

    /// `sm N START LENGTH KIND`
    fn sync_manager(&mut self, words: &[&[u8]]) -> Result<(), AllocError> {
        let [index, start, length, kind] = words else {
            return Ok(());
        };
        let (Ok(index), Ok(start), Ok(length), Ok(control)) = (
            number(index),
            number(start),
            number(length),
            control_of(kind),
        ) else {
            return Ok(());
        };
        let Ok(record) = sync_man_of(start, length, control.bits()) else {
            return Ok(());
        };
        if index >= SYNC_MANAGER_COUNT as u64 {
            return Ok(());
        }
        let earlier = self.slave.of_sync_managers[index as usize];
        if earlier != 0 {
            self.keep(self.line, Oddity::SyncManagerAgain { line: earlier })?;
        }
        if !record.is_active() {
            self.keep(self.line, Oddity::NeverActive)?;
        }
        self.slave.of_sync_managers[index as usize] = self.line;
        self.slave.sync_managers[index as usize] = record;
        Ok(())
    }

    /// `fmmu N ..`
    fn fmmu(&mut self, words: &[&[u8]]) -> Result<(), AllocError> {
        let [index, ..] = words else {
            return Ok(());
        };
        let Ok(index) = number(index) else {
            return Ok(());
        };
        if index >= FMMU_COUNT as u64 {
            return Ok(());
        }
        let earlier = self.slave.of_fmmus[index as usize];
        if earlier != 0 {
            self.keep(self.line, Oddity::FmmuAgain { line: earlier })?;
        }
        self.slave.of_fmmus[index as usize] = self.line;
        Ok(())
    }

    /// `areas OUT IN`
    fn areas(&mut self, words: &[&[u8]]) -> Result<(), AllocError> {
        let [outputs, inputs] = words else {
            return Ok(());
        };
        let (Ok(outputs), Ok(inputs)) = (number(outputs), number(inputs)) else {
            return Ok(());
        };
        if self.slave.of_areas != 0 {
            let line = self.slave.of_areas;
            self.keep(self.line, Oddity::AreasAgain { line })?;
        }
        self.slave.of_areas = self.line;
        self.slave.output_length = outputs.min(u64::from(u16::MAX)) as u16;
        self.slave.input_length = inputs.min(u64::from(u16::MAX)) as u16;
        Ok(())
    }

    /// `state S`
    fn state(&mut self) -> Result<(), AllocError> {
        if self.slave.of_state != 0 {
            let line = self.slave.of_state;
            self.keep(self.line, Oddity::StateAgain { line })?;
        }
        self.slave.of_state = self.line;
        Ok(())
    }
}
