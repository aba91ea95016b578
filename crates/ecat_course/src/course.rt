//! What a master does on the line of a scene.

ghost use Rattle.std.specs.Prelude.{◌≡◌, IfOk, length, map};
ghost use Rattle.ecat_course.specs.Stands.{Stands, shape};
ghost use Rattle.ec_run.specs.Wanted.{wanted_by};

use crate::room::{refuse_full, refuse_long_mailbox};
use ec_app::Slave;
use ec_master::Work;
use ec_run::{MAX_STARTUP, StartupObject, Wanted, add_states, image_length};
use ecat_master::{ENTRIES, IDENTITY, Identity};
use ecat_scene::{Scene, SceneSlave};
use ecat_setup::{Expected, LineFailure, for_packets, names_of, ring_of, work_of};
use ecat_signals::Signal;
use ecat_text::{Lines, refuse_work};
use std::alloc::{AllocError, Global};
use std::io::Write;

/// What is written to a slave in Pre-Op.
type Startup = [Option<StartupObject>; MAX_STARTUP];

/// What a master does on a line: what the slaves are to be told, what each cycle asks, and how far the
/// counters of its items are to move. There are slaves on which the work is accepted, from which that is
/// reckoned, and which are told what they are told here (`stands`).
#[derive(Drop)]
pub struct Course {
    pub(crate) line: Vec<Wanted>,
    pub(crate) identities: Vec<Identity>,
    pub(crate) names: Vec<String>,
    pub(crate) signals: Vec<Signal>,
    pub(crate) work: Work,
    pub(crate) expected: Expected,
    pub(crate) states: bool,
    ghost each_expected: { length expected ≡ length work },
    ghost stands: { ∥ Stands line.items work expected ∥₁ },
}

impl Course {
    /// The course of a scene that was read, if it has items and its line and they are accepted; else it is
    /// printed why not. Nothing is opened for it.
    pub fn of<W: Write>(
        alloc: Global,
        scene: Scene,
        out: &mut W,
    ) -> Result<Option<Course>, LineFailure> {
        let Scene {
            slaves,
            items,
            signals,
            ..
        } = for_packets(scene)?;
        let startups = startups_of(alloc, slaves.as_slice())?;
        let identities = identities_of(alloc, slaves.as_slice())?;
        let names = names_of(alloc, slaves.as_slice())?;
        let mut lines = Lines::new(out);
        if refuse_long_mailbox(slaves.as_slice(), None, &mut lines)? {
            return Ok(None);
        }
        let ring = ring_of(alloc, slaves, &[])?;
        if items.is_empty() {
            lines.text("no items: nothing to cycle on")?;
            lines.end()?;
            return Ok(None);
        }
        let mut work = work_of(items)?;
        let states = add_states(&mut work);
        if refuse_work(ring.slaves(), &work, &mut lines)?
            || refuse_full(&work, states, &mut lines)?
        {
            return Ok(None);
        }
        let expected = Expected::of(ring.slaves(), &work);
        let line = line_of(alloc, ring.slaves(), startups.as_slice())?;
        Ok(Some(Course {
            line,
            identities,
            names,
            signals,
            work,
            expected,
            states,
        }))
    }

    /// How many bytes of outputs a cycle has.
    pub fn image_length(&self) -> usize {
        image_length(&self.work)
    }

    /// What each cycle asks: the items of the scene, and behind them the read of the states, where there is
    /// room for it.
    pub fn work(&self) -> &Work
        ensures { result.now ≡ self.now.work }
    {
        &self.work
    }

    /// How many items of the work are the scene's.
    pub fn items(&self) -> usize {
        self.work.len().saturating_sub(usize::from(self.states))
    }

    /// The station addresses of the slaves, by their places.
    pub fn stations(&self, alloc: Global) -> Result<Vec<u16>, AllocError> {
        let mut stations = Vec::new(alloc);
        for wanted in self.line.iter() {
            stations.push(wanted.station)?;
        }
        Ok(stations)
    }

    /// The signals of the scene, each of which lies in its item.
    pub fn signals(&self, alloc: Global) -> Result<Vec<Signal>, AllocError> {
        let mut signals = Vec::new(alloc);
        for signal in self.signals.iter() {
            let mut name = Vec::new(alloc);
            name.extend_from_slice(signal.name.as_slice())?;
            signals.push(Signal {
                name,
                field: signal.field,
            })?;
        }
        Ok(signals)
    }

    /// How far the counters of a cycle's items are to move, in their order.
    pub fn counters(&self, alloc: Global) -> Result<Vec<u16>, AllocError> {
        let mut counters = Vec::new(alloc);
        for counter in self.expected.counters() {
            counters.push(*counter)?;
        }
        Ok(counters)
    }
}

/// What slaves are to be told, by their places: what stands in each, and its startup objects.
fn line_of(
    alloc: Global,
    slaves: &[Slave],
    startups: &[Startup],
) -> Result<Vec<Wanted>, LineFailure>
    ensures { IfOk result (λ line. map shape line.items ≡ map wanted_by slaves.now) }
{
    let mut line = Vec::new(alloc);
    for (place, slave) in slaves.iter().enumerate() {
        if line.push(wanted_at(slave, startups.get(place))).is_err() {
            return Err(LineFailure::NoMemory);
        }
    }
    Ok(line)
}

/// What a slave is to be told: what stands in it, and these startup objects, if there are any.
fn wanted_at(slave: &Slave, startup: Option<&Startup>) -> Wanted
    ensures { shape result ≡ wanted_by slave.now }
{
    let mut wanted = Wanted::of(slave);
    if let Some(startup) = startup {
        put_startup(&mut wanted, startup);
    }
    wanted
}

/// Has these startup objects be written to a slave.
fn put_startup(wanted: &mut Wanted, startup: &Startup)
    ensures { wanted.new ≡ record wanted.old { startup = startup.now } }
{
    wanted.startup = *startup;
}

/// Who the slaves are to be that a scene describes, by their places.
fn identities_of(alloc: Global, described: &[SceneSlave]) -> Result<Vec<Identity>, LineFailure> {
    let mut identities = Vec::new(alloc);
    for slave in described {
        if identities.push(identity_of(slave)).is_err() {
            return Err(LineFailure::NoMemory);
        }
    }
    Ok(identities)
}

/// Who a slave is to be that a scene describes: the entries of its identity that the scene has.
fn identity_of(described: &SceneSlave) -> Identity {
    let mut identity = [None; ENTRIES];
    for number in 0..ENTRIES {
        if let Some((_, value)) = described.objects.get(IDENTITY, number as u8 + 1) {
            identity[number] = Some(value);
        }
    }
    identity
}

/// The startup objects of the slaves that a scene describes, by their places.
fn startups_of(alloc: Global, described: &[SceneSlave]) -> Result<Vec<Startup>, LineFailure> {
    let mut startups = Vec::new(alloc);
    for slave in described {
        if startups.push(startup_of(slave)).is_err() {
            return Err(LineFailure::NoMemory);
        }
    }
    Ok(startups)
}

/// The startup objects of a slave that a scene describes, in their order.
fn startup_of(described: &SceneSlave) -> Startup {
    let mut startup = [None; MAX_STARTUP];
    for (number, object) in described.startup.iter().enumerate() {
        if number < MAX_STARTUP {
            startup[number] = Some(StartupObject {
                index: object.index,
                sub: object.sub,
                value: object.value,
            });
        }
    }
    startup
}
