//! A scene as plain data.
ghost use Rattle.std.specs.Prelude.{◌+◌, ◌*◌, ◌<◌, ◌≤◌, ◌↔◌, ◌≡◌, length, vec_len, Err};
ghost use Rattle.ec_regs.specs.declared.registers.TheConstants.{FMMU_COUNT, SYNC_MANAGER_COUNT};

use crate::fault::SceneFault;
use crate::reader::Reader;
use ec_app::{Objects, Value};
use ec_applications::Behaviour;
use ec_map::Item;
use ec_regs::{AlState, Fmmu, SyncMan};
use ec_sii::Identity;
use ec_wire::FrameBuf;
use ecat_signals::Signal;
use std::alloc::Global;

/// The most bytes of a scene's text.
pub const MAX_TEXT: usize = 65_536;

/// The most slaves of a scene.
pub const MAX_SLAVES: usize = 256;

/// The most actions of a scene.
pub const MAX_ACTIONS: usize = 32;

/// The most items of a scene.
pub const MAX_ITEMS: usize = 32;

/// The most weathers of a scene.
pub const MAX_WEATHERS: usize = 32;

/// The most startup objects of a slave.
pub const MAX_STARTUP: usize = 16;

/// The most signals of a scene.
pub const MAX_SIGNALS: usize = 256;

/// The most bytes of a signal's name.
pub const MAX_SIGNAL_NAME: usize = 32;

/// The most bytes of a slave's name.
pub const MAX_NAME: usize = 64;

/// The record of one sync manager.
#[derive(Drop)]
pub struct SyncManSetting {
    /// The number of the record, 0 to 7.
    pub index: usize,
    /// What it is set to.
    pub record: SyncMan,
    ghost in_range: { index < SYNC_MANAGER_COUNT },
}

/// The record of one FMMU.
#[derive(Drop)]
pub struct FmmuSetting {
    /// The number of the record, 0 to 7.
    pub index: usize,
    /// What it is set to.
    pub record: Fmmu,
    ghost in_range: { index < FMMU_COUNT },
}

/// Bytes for the process memory.
#[derive(Drop)]
pub struct Load {
    /// Where the bytes go.
    pub address: u16,
    /// The bytes.
    pub bytes: Vec<u8>,
    ghost from: { 0x1000 ≤ address },
    ghost to: { address + vec_len bytes ≤ 0x3000 },
}

/// One line that sets up a slave's controller.
#[derive(Drop)]
pub enum Setting {
    /// `sm`: a sync manager.
    SyncMan(SyncManSetting),
    /// `fmmu`: an FMMU.
    Fmmu(FmmuSetting),
    /// `mem`: process memory.
    Load(Load),
}

/// An object that a master writes when it starts the slave, in Pre-Op (ETG.2000, InitCmd of CoE at the
/// transition Pre-Op to Safe-Op).
#[derive(Clone, Copy, PartialEq, Eq, Debug)]
pub struct StartupObject {
    /// Its index.
    pub index: u16,
    /// Its subindex.
    pub sub: u8,
    /// What is written.
    pub value: Value,
}

/// How many objects a PDO maps at the most: a byte counts them.
pub const MAX_PDO_ENTRIES: usize = 255;

/// An object that a PDO maps, or a gap of bits.
#[derive(Clone, Copy, PartialEq, Eq, Debug)]
pub struct ScenePdoEntry {
    /// The index of the object, 0 for a gap.
    pub index: u16,
    /// Its subindex.
    pub sub: u8,
    /// How many bits it takes.
    pub bits: u8,
}

/// A PDO: the objects that process data is, one after the other (ETG.1000.6, PDO mapping).
#[derive(Drop)]
pub struct ScenePdo {
    /// The index of the object that lists it, as 0x1600 of outputs or 0x1A00 of inputs.
    pub index: u16,
    /// The sync manager in whose area it stands.
    pub manager: u8,
    /// What it maps, at most `MAX_PDO_ENTRIES`.
    pub entries: Vec<ScenePdoEntry>,
}

/// How many bytes an EEPROM has at the most: 16 bits count its words.
pub const MAX_EEPROM: usize = 0x2_0000;

/// Bytes of an EEPROM, as they are; the last of them is before `MAX_EEPROM`.
#[derive(Drop)]
pub struct SiiBytes {
    /// The address of the word with which they begin.
    pub word: u16,
    /// The bytes.
    pub bytes: Vec<u8>,
    ghost to: { 2 * word + vec_len bytes ≤ 131072 },
}

/// What a slave tells of itself.
#[derive(Clone, Copy, PartialEq, Eq, Debug)]
pub enum SlaveKind {
    /// No line says it: whoever sets the slave up decides.
    Unsaid,
    /// `plain`: nothing; its registers of DL information, DL status and slave information are 0.
    Plain,
    /// `device`: it has DL information, DL status and an EEPROM, as controllers that are bought
    /// (IEC 61158-4-12, DL information and slave information interface).
    Device,
}

/// One slave of the line.
#[derive(Drop)]
pub struct SceneSlave {
    /// The station address.
    pub station: u16,
    /// The state that it is in; Init where no line says another.
    pub state: AlState,
    /// Whether its application needs no mailbox (`ec_app::Slave::simple`).
    pub simple: bool,
    /// How many bytes of outputs its application takes.
    pub output_length: u16,
    /// How many bytes of inputs its application gives.
    pub input_length: u16,
    /// What is set up in its controller, in the order of the lines; a later setting of the same sync
    /// manager or FMMU replaces the earlier.
    pub settings: Vec<Setting>,
    /// The objects of the slave, in the order of their lines.
    pub objects: Objects,
    /// What its application does with its process data, in the order of the lines. No two of them put the
    /// inputs of one sync manager.
    pub behaviours: Vec<Behaviour>,
    /// What a master writes when it starts the slave, in the order of the lines, at most `MAX_STARTUP`; the
    /// simulated slave knows nothing of it.
    pub startup: Vec<StartupObject>,
    /// What it tells of itself.
    pub kind: SlaveKind,
    /// Who made it and what it is, as its EEPROM tells it, where a line says so.
    pub identity: Option<Identity>,
    /// The alias by which a master may name it (ETG.1000.6), 0 for none.
    pub alias: u16,
    /// Its name, at most `MAX_NAME` bytes of ASCII text; empty where no line says one.
    pub name: Vec<u8>,
    /// The PDOs that map its process data, in the order of the lines; where no line says one they are made.
    pub pdos: Vec<ScenePdo>,
    /// Bytes that stand in its EEPROM in place of those that are made of the scene, in the order of the
    /// lines; a later one goes over an earlier.
    pub sii: Vec<SiiBytes>,
}

/// What is done with the line before its cycle.
#[derive(Drop)]
pub enum Action {
    /// `frame`: a frame makes a trip.
    Frame(FrameBuf),
    /// `step`: every slave steps once.
    Step,
}

/// What the two copies of one frame meet on their way.
#[derive(Drop)]
pub struct SceneWeather {
    /// The links that are down for the copy of master port A, each at most the number of slaves.
    pub down_for_a: Vec<u64>,
    /// The links that are down for the copy of master port B, each at most the number of slaves.
    pub down_for_b: Vec<u64>,
    /// Is the copy of port A lost?
    pub lost_a: bool,
    /// Is the copy of port B lost?
    pub lost_b: bool,
    /// Does each slave take the copy of port B first?
    pub b_first: bool,
}

/// A line of slaves and what is done with it.
#[derive(Drop)]
pub struct Scene {
    /// The slaves, from master port A to port B.
    pub slaves: Vec<SceneSlave>,
    /// The links that are down, each at most the number of slaves: link 0 leads to port A.
    pub links_down: Vec<u64>,
    /// The frames and steps, in their order.
    pub actions: Vec<Action>,
    /// What the master asks in its cycle.
    pub items: Vec<Item>,
    /// What the frames of the cycle meet, in their order; where there is none, only `links_down`.
    pub weathers: Vec<SceneWeather>,
    /// The signals, in the order of their lines: each lies in its item, and no two have one name.
    pub signals: Vec<Signal>,
}

impl Scene {
    ghost use Rattle.std.specs.Prelude.{IfSome, List};
    ghost use Rattle.ecat_scene.specs.Deeds.{text_does};
    ghost use Rattle.ecat_scene.specs.Meant.{AreWritten, text_of_lines, with_lines, WrittenLine};
    ghost use Rattle.ecat_scene.specs.Read.{ReadAs};
    ghost use Rattle.ecat_scene.specs.Scene.{empty_scene};
    ghost use Rattle.ecat_scene.specs.Signals.{judged};
    ghost use Rattle.ecat_scene.specs.declared.fault.SceneFault.TheVariants.{TooLong};

    /// The scene that the text describes, or its first fault from the top. Lines are what LF
    /// separates; an empty one and one that begins with `#` are skipped. The numbers of links, and whether
    /// signals lie in their items, are judged when all lines stand.
    pub fn read(alloc: Global, text: &[u8]) -> Result<Scene, SceneFault>
        ensures long { (result ≡ Err TooLong) ↔ (MAX_TEXT < length text.now) }
        ensures read { length text.now ≤ MAX_TEXT
            → IfSome (text_does text.now empty_scene) (λ does. ReadAs result (judged does)) }
        ensures written { (lines : List WrittenLine) → AreWritten lines → text.now ≡ text_of_lines lines
            → length text.now ≤ MAX_TEXT → ReadAs result (with_lines lines empty_scene) }
    {
        if text.len() > MAX_TEXT {
            return Err(SceneFault::TooLong);
        }
        Reader::new(alloc).read(text)
    }
}
