//! The reading of a scene: its lines in their order, then the links that they name.
ghost use Rattle.std.specs.Prelude.{◌≡◌, ◌≢◌, [], Err, IfSome, None, Ok, is_some, map, not};
ghost use Rattle.std.specs.List.{list_all};
ghost use Rattle.ecat_scene.specs.Deeds.{is_line_end, line_does, text_does, word_does};
ghost use Rattle.ecat_scene.specs.Read.{Did, ReadAs};
ghost use Rattle.ecat_scene.specs.Scene.{empty_scene, scene_record, signal_record};
ghost use Rattle.ecat_scene.specs.Signals.{has_item, judged};
ghost use Rattle.ecat_scene.specs.Order.{fault_of};
ghost use Rattle.ecat_scene.specs.declared.fault.SceneFault.TheVariants.{TooLong};

use crate::fault::{LineFault, SceneFault, Stop};
use crate::scene::{Scene, SlaveKind};
use crate::signal_lines::have_items;
use crate::words::{put_words, test_text, text_of};
use ec_map::Kind;
use std::alloc::Global;

/// A link that a line names. How far numbers may go is known only when all slaves are.
#[derive(Clone, Copy)]
pub(crate) struct NamedLink {
    /// The number of the line, from 1.
    pub(crate) line: usize,
    /// The number of the link.
    pub(crate) number: u64,
}

/// The scene as far as its text has been read.
pub(crate) struct Reader {
    /// Where the scene's memory comes from.
    pub(crate) alloc: Global,
    /// The number of the line that is read, from 1.
    pub(crate) line: usize,
    /// What the lines so far say.
    pub(crate) scene: Scene,
    /// The links that they name, in their order.
    pub(crate) links: Vec<NamedLink>,
    /// The numbers of the lines of its signals, in their order.
    pub(crate) signal_lines: Vec<usize>,
}

impl Drop for Reader {
    fn drop(self) {
        let Reader {
            alloc: _,
            line: _,
            scene: _,
            links: _,
            signal_lines: _,
        } = self;
    }
}

impl Reader {
    pub(crate) fn new(alloc: Global) -> Reader
        ensures scene { scene_record result.scene ≡ empty_scene }
        ensures links { result.links.items ≡ [] }
    {
        let scene = Scene {
            slaves: Vec::new(alloc),
            links_down: Vec::new(alloc),
            actions: Vec::new(alloc),
            items: Vec::new(alloc),
            weathers: Vec::new(alloc),
            signals: Vec::new(alloc),
        };
        Reader {
            alloc,
            line: 0,
            scene,
            links: Vec::new(alloc),
            signal_lines: Vec::new(alloc),
        }
    }

    /// Reads all lines of the text.
    pub(crate) fn read(mut self, text: &[u8]) -> Result<Scene, SceneFault>
        ensures short { result ≢ Err TooLong }
        ensures read { self.links.items ≡ []
            → IfSome (text_does text.now (scene_record self.scene)) (λ does. ReadAs result (judged does)) }
    {
        let mut words = Vec::new(self.alloc);
        for line in text.split(|byte| is_line_end(*byte)) {
            self.line = self.line.saturating_add(1);
            match self.read_line(line, &mut words) {
                Ok(()) => {}
                Err(stop) => return Err(fault_of(self.line, stop)),
            }
        }
        self.judged()
    }

    /// The scene of lines that all stand, or the first of them that is known to be at fault only then.
    #[tactic(auto, using(crate::proofs::SignalLemmas::signals))]
    fn judged(self) -> Result<Scene, SceneFault>
        ensures short { result ≢ Err TooLong }
        ensures judged { self.links.items ≡ [] → ReadAs result (judged (Ok (scene_record self.scene))) }
    {
        if let Some(line) = self.line_at_fault() {
            return Err(SceneFault::Line {
                line,
                fault: LineFault::OutOfRange,
            });
        }
        let Reader {
            alloc: _,
            line: _,
            scene,
            links: _,
            signal_lines: _,
        } = self;
        Ok(scene)
    }

    /// The first line that is known to be at fault when all lines stand: it names a link which is not on the
    /// line of slaves, or a signal that does not lie in its item.
    fn line_at_fault(&self) -> Option<usize>
        ensures { self.now.links.items ≡ [] → is_some result ≡ not (list_all
            (λ signal. has_item self.now.scene.items.items (signal_record signal))
            self.now.scene.signals.items) }
    {
        let link = self.line_of_a_wrong_link();
        if have_items(self.scene.items.as_slice(), self.scene.signals.as_slice()) {
            return link;
        }
        let signal = self.line_of_a_wrong_signal();
        match link {
            Some(link) => Some(link.min(signal)),
            None => Some(signal),
        }
    }

    /// The first line that names a link which is not on the line of slaves.
    fn line_of_a_wrong_link(&self) -> Option<usize>
        ensures { self.now.links.items ≡ [] → result ≡ None }
    {
        let last = self.scene.slaves.len() as u64;
        self.links
            .iter()
            .find(|link| link.number > last)
            .map(|link| link.line)
    }

    /// Reads one line, whose words take the place of those of the line before.
    fn read_line<'a>(&mut self, line: &'a [u8], words: &mut Vec<&'a [u8]>) -> Result<(), Stop>
        ensures { IfSome (line_does line.now (scene_record self.old.scene)) (Did self.old self.new result) }
    {
        test_text(line)?;
        if line.starts_with(b"#") {
            return Ok(());
        }
        put_words(words, line)?;
        let [first, rest @ ..] = words.as_slice() else {
            return Ok(());
        };
        self.read_words(first, rest)
    }

    /// Does what a line says, by its first word and the others.
    fn read_words(&mut self, first: &[u8], rest: &[&[u8]]) -> Result<(), Stop>
        ensures { IfSome (word_does first.now (map (λ word. word.now) rest.now) (scene_record self.old.scene))
            (Did self.old self.new result) }
    {
        match text_of(first) {
            "slave" => self.slave(rest),
            "state" => self.state(rest),
            "areas" => self.areas(rest),
            "simple" => self.simple(rest),
            "mirror" => self.mirror(rest),
            "count" => self.count(rest),
            "sm" => self.sync_manager(rest),
            "fmmu" => self.fmmu(rest),
            "mem" => self.load(rest),
            "object" => self.object(rest),
            "startup" => self.startup(rest),
            "plain" => self.kind(SlaveKind::Plain, rest),
            "device" => self.kind(SlaveKind::Device, rest),
            "identity" => self.identity(rest),
            "alias" => self.alias(rest),
            "name" => self.name(rest),
            "pdo" => self.pdo(rest),
            "sii" => self.sii(rest),
            "signal" => self.signal(rest),
            "link" => self.link(rest),
            "frame" => self.frame(rest),
            "step" => self.step(rest),
            "lrd" => self.item(Kind::Lrd, rest),
            "lwr" => self.item(Kind::Lwr, rest),
            "lrw" => self.item(Kind::Lrw, rest),
            "brd" => self.item(Kind::Brd, rest),
            "fprd" => self.addressed_item(Kind::Fprd, rest),
            "fpwr" => self.addressed_item(Kind::Fpwr, rest),
            "weather" => self.weather(rest),
            _ => Err(Stop::Fault(LineFault::UnknownWord)),
        }
    }
}

/// Is the byte LF, which separates lines?
fn is_line_end(byte: u8) -> bool
    ensures { result ≡ is_line_end byte }
{
    byte == b'\n'
}

/// What is told where a line stops the reading: what is wrong with it, or that memory ran out.
fn fault_of(line: usize, stop: Stop) -> SceneFault
    ensures told { result ≡ fault_of line stop }
    ensures not_too_long { result ≢ TooLong }
{
    match stop {
        Stop::Fault(fault) => SceneFault::Line { line, fault },
        Stop::NoMemory => SceneFault::NoMemory,
    }
}
