//! A cycle over the slaves, and the judgement of it.

ghost use Rattle.std.specs.Prelude.{◌≡◌, length};

use crate::exchange::{Image, are_shown, drawn, exchange, put_inputs};
use crate::lossy::Lossy;
use crate::random::{Random, SEED};
use crate::slaves::IMAGE;
use ec_map::{Item, expected};
use ec_master::{CycleFault, Verdict, Work, run_cycle};
use ec_ring::Ring;
use ecat_udp::{PacketLine, UdpPorts};

/// What is wrong with a cycle.
#[derive(Clone, Copy, Debug)]
pub(crate) enum Wrong {
    /// The cycle could not be made ready.
    Unready,
    /// The cycle has no verdict.
    Fault(CycleFault),
    /// The cycle is not good although no packet was lost.
    NothingLost,
    /// The cycle is good, and the answers are not what the slaves hold.
    Image,
    /// The cycle is not good, and has changed the work.
    Work,
}

/// The slaves, and what carries the packets.
#[derive(Drop)]
pub(crate) struct Rig<L: PacketLine> {
    ring: Ring,
    line: Lossy<L>,
    random: Random,
    /// How many cycles went before.
    round: u64,
}

impl<L: PacketLine + Drop> Rig<L> {
    /// These slaves behind this line.
    pub(crate) fn new(ring: Ring, line: Lossy<L>) -> Rig<L> {
        Rig {
            ring,
            line,
            random: Random::new(SEED),
            round: 0,
        }
    }

    /// How many packets were lost.
    pub(crate) fn lost(&self) -> u64 {
        self.line.lost()
    }

    /// Runs a cycle with inputs and outputs of its own, over the whole line or with an inner link down, and
    /// judges it.
    pub(crate) fn cycle(self) -> Result<(Rig<L>, Verdict), Wrong> {
        let Rig {
            mut ring,
            line,
            mut random,
            round,
        } = self;
        let inputs = drawn(&mut random);
        let outputs = drawn(&mut random);
        let broken = (random.draw() % 5) as usize;
        if !put_inputs(&mut ring, &inputs) || !set_inner_link(&mut ring, broken, false) {
            return Err(Wrong::Unready);
        }
        let Some(mut work) = exchange(&outputs) else {
            return Err(Wrong::Unready);
        };
        let lost = line.lost();
        let mut ports = UdpPorts::new(ring, line);
        work.begin_round(round);
        let verdict = run(&mut ports, &mut work)?;
        let (mut ring, line) = ports.into_parts();
        let lossless = line.lost() == lost;
        if verdict != Verdict::Good && lossless {
            return Err(Wrong::NothingLost);
        }
        judge(verdict, &ring, &work, &inputs, &outputs)?;
        if !set_inner_link(&mut ring, broken, true) {
            return Err(Wrong::Unready);
        }
        let round = round.wrapping_add(1);
        Ok((
            Rig {
                ring,
                line,
                random,
                round,
            },
            verdict,
        ))
    }
}

/// Puts a link between two slaves up or down; at 0 there is nothing to do.
fn set_inner_link(ring: &mut Ring, k: usize, up: bool) -> bool {
    if k >= ring.slaves().len() {
        return false;
    }
    if k > 0 {
        ring.set_link(k, up);
    }
    true
}

/// Runs the cycle.
fn run<L: PacketLine>(ports: &mut UdpPorts<L>, work: &mut Work) -> Result<Verdict, Wrong>
    requires { length work.old ≡ 2 }
{
    let slaves = ports.ring().slaves();
    let counters = [
        expected(slaves, work.item(0)),
        expected(slaves, work.item(1)),
    ];
    run_cycle(ports, work, &counters).map_err(Wrong::Fault)
}

/// Is the work, and are the slaves, as the verdict says?
fn judge(
    verdict: Verdict,
    ring: &Ring,
    work: &Work,
    inputs: &Image,
    outputs: &Image,
) -> Result<(), Wrong> {
    if verdict == Verdict::Good {
        if !are_left(work, outputs, inputs) || !are_shown(ring, outputs) {
            return Err(Wrong::Image);
        }
    } else if !are_left(work, outputs, &[0; IMAGE]) {
        return Err(Wrong::Work);
    }
    Ok(())
}

/// Does the work now have these data?
fn are_left(work: &Work, outputs: &Image, inputs: &Image) -> bool {
    work.len() == 2 && has(work.item(0), outputs) && has(work.item(1), inputs)
}

/// Does an item have these data?
fn has(item: &Item, image: &Image) -> bool {
    item.data() == image.as_slice()
}
