//! What helps a person where something was refused: lines on standard error behind those that are fixed. What
//! was refused is looked at once more, so that no command knows of it; what fails on the way is passed over.

use arrayvec::ArrayVec;
use ec_app::roles::{ANSWER_MAILBOX, REQUEST_MAILBOX, is_answer_mailbox, is_request_mailbox};
use ec_map::{Item, MapFault, Mapped, check as check_line, check_item};
use ec_regs::registers::SYNC_MANAGER_COUNT;
use ec_regs::{LONGEST_MAILBOX, SHORTEST_MAILBOX, SyncMan};
use ec_ring::{Links, MAX_LINKS, Ring, Travel};
use ecat_args::SceneCommand;
use ecat_lint::{Part, explained, line_of, odd_lines};
use ecat_scene::{Scene, SceneFault};
use ecat_setup::{is_for_run_alone, records_of, ring_of};
use ecat_simulation::where_broken;
use ecat_source::{Source, SourceFault};
use ecat_text::{GOOD, REFUSED};
use std::alloc::Global;
use std::io::Write;

/// The first bytes of a capture, by which files are told apart.
const FRONT: usize = 4;

/// A source whose first bytes are kept.
#[derive(Drop)]
pub struct Fronted<S> {
    source: S,
    front: ArrayVec<u8, FRONT>,
}

impl<S: Source> Fronted<S> {
    /// A source of which nothing has been read yet.
    pub fn new(source: S) -> Fronted<S> {
        Fronted {
            source,
            front: ArrayVec::new(),
        }
    }
}

/// Keeps bytes as far as there is room.
fn keep(front: &mut ArrayVec<u8, FRONT>, bytes: &[u8]) {
    for byte in bytes {
        let _ = front.try_push(*byte);
    }
}

impl<S: Source> Source for Fronted<S> {
    ghost remaining = { λ s. S.remaining s.source };

    ghost count = { λ s. S.count s.source };

    fn read(&mut self, into: &mut [u8]) -> Result<usize, SourceFault> {
        let count = self.source.read(into)?;
        keep(&mut self.front, &into[..count]);
        Ok(count)
    }

    fn failures(&self) -> u64 {
        self.source.failures()
    }
}

/// Tells `err` what a file is that is refused as a capture, if it is no classic one; `source` has been read.
pub fn hint_capture<S: Source, V: Write>(path: &str, source: &Fronted<S>, status: u8, err: &mut V) {
    let what = match source.front.as_slice() {
        _ if status != REFUSED => return,
        [0xd4, 0xc3, 0xb2, 0xa1] | [0xa1, 0xb2, 0xc3, 0xd4] => return,
        [0x0a, 0x0d, 0x0d, 0x0a] =>
            "a pcapng file: ecat list reads it, and editcap -F pcap IN OUT changes it",
        [0x4d, 0x3c, 0xb2, 0xa1] | [0xa1, 0xb2, 0x3c, 0x4d] => {
            "a pcap file with nanoseconds: ecat list reads it, and editcap -F pcap IN OUT changes it"
        }
        [0x1f, 0x8b, ..] => "a file that gzip packed: gunzip it first",
        [0x28, 0xb5, 0x2f, 0xfd] => "a file that zstd packed: unzstd it first",
        [] => "an empty file",
        _ => "no pcap file",
    };
    let _ = writeln!(err, "{path}: {what}");
}

/// Tells `err` how many lines of the scene of this text are odd, where some are and the command runs or
/// serves it.
pub fn hint_odd_lines<V: Write>(
    alloc: Global,
    command: &SceneCommand<'_>,
    path: &str,
    text: &[u8],
    err: &mut V,
) {
    if matches!(
        command,
        SceneCommand::Run { .. } | SceneCommand::Serve { .. }
    )
        && let Ok(found) = odd_lines(alloc, text)
        && !found.is_empty()
    {
        let count = found.len();
        let _ = writeln!(err, "odd lines: {count}; ecat lint {path} names them");
    }
}

/// What hints keep of a scene that was read, before its command takes it.
#[derive(Clone, Copy)]
pub struct Noted {
    /// Why it is none.
    fault: Option<SceneFault>,
    /// How much its line has, where that is said to be covered.
    covered: Option<Covered>,
}

impl Noted {
    /// What is kept for this command.
    pub fn of(
        alloc: Global,
        command: &SceneCommand<'_>,
        scene: &Result<Scene, SceneFault>,
    ) -> Noted {
        match scene {
            Ok(scene) if matches!(command, SceneCommand::Cover { .. }) => Noted {
                fault: None,
                covered: covered_of(alloc, scene),
            },
            Ok(_) => Noted {
                fault: None,
                covered: None,
            },
            Err(fault) => Noted {
                fault: Some(*fault),
                covered: None,
            },
        }
    }
}

/// How many slaves a line has, and how many bytes of process data in active areas.
#[derive(Clone, Copy)]
struct Covered {
    slaves: usize,
    areas: Areas,
}

/// How many bytes of process data there are in active areas.
#[derive(Clone, Copy)]
struct Areas {
    outputs: u64,
    inputs: u64,
}

/// How much the line of a scene has, unless memory runs out.
fn covered_of(alloc: Global, scene: &Scene) -> Option<Covered> {
    let Ok(line) = records_of(alloc, scene.slaves.as_slice()) else {
        return None;
    };
    let mut all = Areas {
        outputs: 0,
        inputs: 0,
    };
    for slave in line.iter() {
        let areas = areas_of(slave);
        all.outputs = all.outputs.saturating_add(areas.outputs);
        all.inputs = all.inputs.saturating_add(areas.inputs);
    }
    Some(Covered {
        slaves: line.len(),
        areas: all,
    })
}

/// How many bytes of process data a slave has in active areas.
fn areas_of<S: Mapped>(slave: &S) -> Areas {
    let mut areas = Areas {
        outputs: 0,
        inputs: 0,
    };
    for number in 0..SYNC_MANAGER_COUNT {
        let manager = slave.sync_manager(number);
        let length = u64::from(manager.length);
        if manager.guards_outputs() {
            areas.outputs = areas.outputs.saturating_add(length);
        } else if manager.guards_inputs() {
            areas.inputs = areas.inputs.saturating_add(length);
        }
    }
    areas
}

/// Tells `err` of how many bytes it is said that a line is covered.
fn hint_covered<V: Write>(covered: Covered, err: &mut V) {
    let count = covered.slaves;
    let Areas { outputs, inputs } = covered.areas;
    let _ = writeln!(
        err,
        "slaves {count}, bytes in active areas: outputs {outputs}, inputs {inputs}"
    );
}

/// Tells `err` what helps where a command on the scene of this text was refused, and of a line that is
/// covered how much it has.
pub fn hint_scene<V: Write>(
    alloc: Global,
    command: &SceneCommand<'_>,
    path: &str,
    text: &[u8],
    noted: Noted,
    status: u8,
    err: &mut V,
) {
    match (noted.fault, noted.covered) {
        (None, Some(covered)) if status == GOOD => hint_covered(covered, err),
        (None, _) if status == REFUSED => hint_line(alloc, command, path, text, err),
        (Some(fault), _) if status == REFUSED => hint_fault(path, text, fault, err),
        (None, _) | (Some(_), _) => {}
    }
}

/// Tells `err` what is wrong with the line of a text by which it is no scene.
pub fn hint_fault<V: Write>(path: &str, text: &[u8], fault: SceneFault, err: &mut V) {
    match fault {
        SceneFault::Line { line, fault } => {
            if let Some(told) = explained(text, line, fault) {
                let _ = writeln!(err, "{path}:{told}");
            }
        }
        SceneFault::TooLong | SceneFault::NoMemory => {}
    }
}

/// Tells what is in the way of a command on the line of a scene. Its text is read once more, since the
/// command took the scene.
fn hint_line<V: Write>(
    alloc: Global,
    command: &SceneCommand<'_>,
    path: &str,
    text: &[u8],
    err: &mut V,
) {
    let Ok(scene) = Scene::read(alloc, text) else {
        return;
    };
    match command {
        SceneCommand::Sdo {
            station,
            at: None,
            ..
        } => hint_station(alloc, scene, *station, err),
        SceneCommand::Check { .. }
        | SceneCommand::Cover { .. }
        | SceneCommand::Lint { .. }
        | SceneCommand::Sweep => {
            hint_fit(alloc, path, text, &scene, err);
        }
        SceneCommand::Udp { .. } | SceneCommand::Serve { .. } | SceneCommand::Master(_)
            if is_for_run_alone(&scene) => {
            let _ = writeln!(
                err,
                "{path} has a line frame, step or weather, which ecat run does alone"
            );
        }
        SceneCommand::Master(_) => {
            hint_fit(alloc, path, text, &scene, err);
        }
        SceneCommand::Run { judge, .. } | SceneCommand::Udp { judge, .. } => {
            if hint_fit(alloc, path, text, &scene, err) && !judge {
                hint_cable(alloc, path, scene, err);
            }
        }
        SceneCommand::Sdo { .. } | SceneCommand::Where { .. } | SceneCommand::Serve { .. } => {}
    }
}

/// Tells where the cable of a scene is broken, unless its frames meet several weathers.
fn hint_cable<V: Write>(alloc: Global, path: &str, scene: Scene, err: &mut V) {
    if scene.weathers.len() < 2 {
        let _ = where_broken(alloc, scene, err);
    } else {
        let _ = writeln!(err, "ecat run {path} --judge tells what is in the way");
    }
}

/// Tells why the line of a scene or the first of its items is refused. Are all accepted?
fn hint_fit<V: Write>(alloc: Global, path: &str, text: &[u8], scene: &Scene, err: &mut V) -> bool {
    let Ok(line) = records_of(alloc, scene.slaves.as_slice()) else {
        return false;
    };
    let line = line.as_slice();
    hint_refusal(path, text, line, err) && hint_item(path, text, line, scene.items.as_slice(), err)
}

/// Tells where the bit of a refusal lies, and which lines of the scene it is about. Is the line accepted?
fn hint_refusal<S: Mapped, V: Write>(path: &str, text: &[u8], line: &[S], err: &mut V) -> bool {
    let fault = match check_line(line) {
        Ok(()) => return true,
        Err(fault) => fault,
    };
    hint_bit(&fault, err);
    let [first, second] = parts_of(&fault);
    hint_line_of(path, text, first, err);
    if first != second {
        hint_line_of(path, text, second, err);
    }
    false
}

/// Tells where the bit of a refusal lies, if it is about one.
fn hint_bit<V: Write>(fault: &MapFault, err: &mut V) {
    let _ = match *fault {
        MapFault::TwiceWritten { bit, .. } => {
            let byte = bit / 8;
            let place = bit % 8;
            writeln!(err, "bit {bit} is bit {place} of the byte 0x{byte:04x}")
        }
        MapFault::TwiceRead { bit, .. } | MapFault::ReadAndWritten { bit, .. } => {
            let byte = bit / 8;
            let place = bit % 8;
            writeln!(err, "bit {bit} is bit {place} of logical byte 0x{byte:08x}")
        }
        _ => Ok(()),
    };
}

/// What a refusal is about: two parts of a scene, or one of them twice.
fn parts_of(fault: &MapFault) -> [Part; 2] {
    match *fault {
        MapFault::TwinStation { slave, later_slave } => {
            [Part::Slave(slave), Part::Slave(later_slave)]
        }
        MapFault::BadFmmu { slave, fmmu } | MapFault::OutsideArea { slave, fmmu, .. } => {
            [Part::Fmmu(slave, fmmu), Part::Fmmu(slave, fmmu)]
        }
        MapFault::AreasMeet {
            slave,
            sync_manager,
            later_sync_manager,
            ..
        } => [
            Part::SyncManager(slave, sync_manager),
            Part::SyncManager(slave, later_sync_manager),
        ],
        MapFault::TwiceWritten {
            slave,
            fmmu,
            later_fmmu,
            ..
        } => [Part::Fmmu(slave, fmmu), Part::Fmmu(slave, later_fmmu)],
        MapFault::TwiceRead {
            slave,
            fmmu,
            later_slave,
            later_fmmu,
            ..
        } => [Part::Fmmu(slave, fmmu), Part::Fmmu(later_slave, later_fmmu)],
        MapFault::ReadAndWritten {
            reader,
            reader_fmmu,
            writer,
            writer_fmmu,
            ..
        } => [
            Part::Fmmu(reader, reader_fmmu),
            Part::Fmmu(writer, writer_fmmu),
        ],
    }
}

/// Tells which line of a scene says something.
fn hint_line_of<V: Write>(path: &str, text: &[u8], part: Part, err: &mut V) {
    if let Some(line) = line_of(text, part) {
        let _ = writeln!(err, "{path}:{line}: {part} is set here");
    }
}

/// Tells which line has the first item that is refused. Are all accepted?
fn hint_item<S: Mapped, V: Write>(
    path: &str,
    text: &[u8],
    line: &[S],
    items: &[Item],
    err: &mut V,
) -> bool {
    let refused = items
        .iter()
        .position(|item| check_item(line, item).is_err());
    if let Some(item) = refused {
        hint_line_of(path, text, Part::Item(item), err);
    }
    refused.is_none()
}

/// Tells why a slave of a scene has no mailbox that is reached, if that is so.
fn hint_station<V: Write>(alloc: Global, scene: Scene, station: u16, err: &mut V) {
    let Ok(ring) = ring_of(alloc, scene.slaves, scene.links_down.as_slice()) else {
        return;
    };
    hint_slave(&ring, station, err);
}

/// Tells why a slave of a ring has no mailbox that is reached, if that is so.
fn hint_slave<V: Write>(ring: &Ring, station: u16, err: &mut V) {
    let found = ring
        .slaves()
        .iter()
        .position(|slave| slave.controller().station() == station);
    let Some(place) = found else {
        let _ = writeln!(err, "no slave of the scene has the station 0x{station:04x}");
        return;
    };
    let controller = ring.slaves()[place].controller();
    let requests = controller.syncman(REQUEST_MAILBOX);
    let answers = controller.syncman(ANSWER_MAILBOX);
    if let Some(length) = unfit_length(&requests).or(unfit_length(&answers)) {
        let _ = writeln!(
            err,
            "slave {place} 0x{station:04x} has a mailbox of {length} bytes; \
            {SHORTEST_MAILBOX} to {LONGEST_MAILBOX} are active"
        );
    } else if !is_request_mailbox(&requests) || !is_answer_mailbox(&answers) {
        let _ = writeln!(
            err,
            "slave {place} 0x{station:04x} has no mailboxes: mailbox-write at sm 0, mailbox-read at sm 1"
        );
    } else if is_cut_off(ring, place) {
        let _ = writeln!(
            err,
            "slave {place} 0x{station:04x} is cut off: a link is down on both sides of it"
        );
    }
}

/// The length of a mailbox that is too short or too long to be active.
fn unfit_length(manager: &SyncMan) -> Option<u16> {
    let length = manager.length;
    if manager.is_mailbox() && (length < SHORTEST_MAILBOX || LONGEST_MAILBOX < length) {
        Some(length)
    } else {
        None
    }
}

/// Is a link down before a slave, and another one behind it?
fn is_cut_off(ring: &Ring, place: usize) -> bool {
    let links = ring.links();
    let behind = place.saturating_add(1);
    let end = ring.slaves().len().saturating_add(1);
    is_any_down(&links, 0, behind) && is_any_down(&links, behind, end)
}

/// Is one of the links down from one number on and below another?
fn is_any_down(links: &Links, from: usize, to: usize) -> bool {
    for k in from..to {
        if k < MAX_LINKS && !links.is_up(k) {
            return true;
        }
    }
    false
}
