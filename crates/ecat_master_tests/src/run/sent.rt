//! What a cycle sends, byte by byte, by ports in memory that keep it.

ghost use Rattle.std.specs.Prelude.{⊤};
ghost use Rattle.ec_run.specs.Cycles.{AddUp};

use crate::asserts::assert_found;
use crate::master::line::{EXCHANGED, exchange};
use ec_master::{CycleFault, PortFault, Ports, Verdict};
use ec_ring::Came;
use ec_run::{Cycles, Outputs};
use ec_wire::FrameBuf;
use std::process::Abort;

/// Ports at which copy A comes back as if it had been counted so often, and which keep what was sent.
#[derive(Drop)]
struct Counting {
    gains: u16,
    sent: Option<FrameBuf>,
}

impl Ports for Counting {
    ghost trips = { λ before sent came later. ⊤ };

    ghost failed = { λ ports. 0 };

    fn trip(&mut self, sent: &FrameBuf) -> Result<Came, PortFault> {
        let mut copy = sent.copy();
        if copy.count() > 0 {
            let counter = copy.counter(0).wrapping_add(self.gains);
            copy.set_counter(0, counter);
        }
        self.sent = Some(sent.copy());
        Ok(Came {
            a: Some(copy),
            b: Some(sent.copy()),
        })
    }

    fn failures(&self) -> u64 {
        0
    }
}

/// Makes a cycle whose counter gains so much.
fn makes(ports: &mut Counting, cycles: &mut Cycles, gains: u16) -> Result<Verdict, CycleFault>
    requires { AddUp cycles.old.counts }
    ensures { AddUp cycles.new.counts }
{
    ports.gains = gains;
    if cycles.asked.len() != EXCHANGED.len() || cycles.counts.cycles > 9 {
        return Err(CycleFault::Port);
    }
    cycles.cycle(ports, Outputs::Count, &EXCHANGED)
}

/// Asserts what the ports were sent last.
fn assert_sent(rt: &impl Abort, ports: &Counting, wanted: &[u8]) {
    let sent = match &ports.sent {
        Some(frame) => frame.bytes(),
        None => &[],
    };
    assert_found(rt, "what is sent", sent, wanted);
}

/// Asserts what the image holds.
fn assert_image(rt: &impl Abort, cycles: &Cycles, wanted: &[u8]) {
    let image = match &cycles.image {
        Some(image) if image.len() > 0 => image.item(0).data(),
        _ => &[],
    };
    assert_found(rt, "the image", image, wanted);
}

/// The number 2 in three bytes, and the counter 0.
static SENT: [u8; 17] = [
    0x0F, 0x10, 0x0C, 0x00, 0x00, 0x00, 0x01, 0x00, 0x03, 0x00, 0x00, 0x00, 0x02, 0x00, 0x00, 0x00,
    0x00,
];

#[test]
fn a_cycle_sends_its_number_and_a_counter_of_0_and_the_image_is_that_of_a_good_one(
    rt: HostRuntime,
) {
    let mut cycles = Cycles::new(exchange(&rt));
    let mut ports = Counting {
        gains: 0,
        sent: None,
    };
    let first = makes(&mut ports, &mut cycles, 9);
    let second = makes(&mut ports, &mut cycles, 9);
    let third = makes(&mut ports, &mut cycles, 8);
    let good = Ok(Verdict::Good);
    let wanted = [good, good, Ok(Verdict::Short(0))];
    assert_found(&rt, "the verdicts", [first, second, third], wanted);
    assert_sent(&rt, &ports, &SENT);
    assert_image(&rt, &cycles, &[0x01, 0x00, 0x00]);
    let counts = (cycles.counts.good, cycles.counts.short);
    assert_found(&rt, "good and short", counts, (2, 1));
}
