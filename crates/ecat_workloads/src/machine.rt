//! A master that runs, on a line of simulated slaves whose cables break and heal.

ghost use Rattle.std.specs.Prelude.{⊤, ◌≡◌, length};

use crate::chance::Chance;
use crate::digest::Digest;
use crate::line::Line;
use ec_master::{PortFault, Work};
use ec_ring::{Arrivals, HeardPorts, Ring, Travel, Weather};
use ec_run::{MOST_READS, Outputs, Wanted, wanted_of};
use ec_wire::{Command, FrameBuf};
use ecat_master::{LinePlan, NoTask, Pace, Plan, Writers, master};
use ecat_scene::Scene;
use ecat_setup::{Expected, ring_of, set_link, slaves_of, work_of};
use std::alloc::Global;

/// What happens at one of so many frames, in each of three ways.
const SELDOM: u32 = 400;

/// Ports to a ring whose slaves take a step after each frame. Once the master cycles, links break and heal,
/// and copies are lost, by chance.
#[derive(Drop)]
struct Machine {
    ring: Ring,
    chance: Chance,
    cycles: bool,
}

impl Machine {
    /// What befalls a frame.
    fn weather(&mut self, sent: &FrameBuf) -> Weather {
        if sent.count() > 0 && sent.command(0) == Command::Lrw {
            self.cycles = true;
        }
        let mut lost = (false, false);
        if self.cycles {
            match self.chance.below(SELDOM) {
                0 => self.turn(false),
                1 | 2 => self.turn(true),
                3 => lost = (true, false),
                4 => lost = (false, true),
                _ => {}
            }
        }
        let mut weather = Weather::calm(self.ring.links());
        (weather.lost_a, weather.lost_b) = lost;
        weather
    }

    /// Breaks a link, or mends all.
    fn turn(&mut self, up: bool) {
        let links = self.ring.slaves().len().saturating_add(1).min(300) as u32;
        if up {
            for link in 0..links {
                set_link(&mut self.ring, link as usize, true);
            }
        } else if links > 0 {
            let link = self.chance.below(links);
            set_link(&mut self.ring, link as usize, false);
        }
    }
}

impl HeardPorts for Machine {
    ghost trips = { λ before sent came later. ⊤ };

    ghost failed = { λ ports. 0 };

    fn trip_heard(&mut self, sent: &FrameBuf) -> Result<Arrivals, PortFault> {
        let weather = self.weather(sent);
        let came = self.ring.arrivals(sent, &weather);
        self.ring.step_all();
        Ok(came)
    }

    fn failures(&self) -> u64 {
        0
    }
}

/// So many cycles, back to back.
#[derive(Drop)]
struct Count {
    left: u32,
}

impl Pace for Count {
    ghost over = { λ count. count.left ≡ 0 };

    fn next(&mut self) -> bool {
        if self.left == 0 {
            return false;
        }
        self.left -= 1;
        true
    }

    fn late(&mut self) -> Option<u64> {
        None
    }

    fn now(&mut self) -> u64 {
        0
    }
}

/// What a master asks of a line: what its slaves are to be told, its work, and what is expected of it.
#[derive(Drop)]
struct Course {
    line: Vec<Wanted>,
    work: Work,
    expected: Expected,
    ghost each_expected: { length expected ≡ length work },
}

/// What the master of a scene asks.
fn course_of(alloc: Global, scene: &[u8]) -> Option<Course> {
    let scene = Scene::read(alloc, scene).ok()?;
    let work = work_of(scene.items).ok()?;
    let slaves = slaves_of(alloc, scene.slaves).ok()?;
    let expected = Expected::of(slaves.as_slice(), &work);
    let line = wanted_of(alloc, slaves.as_slice()).ok()?;
    Some(Course {
        line,
        work,
        expected,
    })
}

/// `ecat master` with recovery and a log on a line of so many slaves, for so many cycles.
pub(crate) fn mastered(alloc: Global, seed: u32, slaves: u32, cycles: u32) -> Option<u64> {
    let mut chance = Chance::new(seed);
    let scene = Line::of_bytes(alloc, &mut chance, slaves, true)?;
    let course = course_of(alloc, scene.text())?;
    let served = Scene::read(alloc, scene.text()).ok()?;
    let ports = Machine {
        ring: ring_of(alloc, served.slaves, &[]).ok()?,
        chance,
        cycles: false,
    };
    run(ports, course, cycles)
}

/// The digest of what a master prints and logs.
fn run(ports: Machine, course: Course, cycles: u32) -> Option<u64> {
    let plan = Plan {
        outputs: Outputs::Count,
        stop: false,
        recover: true,
        tries: MOST_READS,
        progress: false,
        log: true,
        log_images: false,
        log_or_stop: false,
        states: false,
        identities: &[],
        names: &[],
        leave: None,
        leave_by_task: false,
    };
    let Course {
        line,
        work,
        expected,
    } = course;
    let mut out = Digest::new();
    let mut err = Digest::new();
    let mut log = Digest::new();
    let line_plan = LinePlan {
        line: line.as_slice(),
        expected: expected.counters(),
        plan: &plan,
    };
    let writers = Writers {
        out: &mut out,
        err: &mut err,
        log: &mut log,
    };
    let status = master(
        ports,
        work,
        &line_plan,
        &mut Count { left: cycles },
        &mut NoTask,
        writers,
    );
    out.take(u64::from(status));
    out.take(err.value());
    out.take(log.value());
    Some(out.value())
}
