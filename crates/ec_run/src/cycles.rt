//! Cycles over two ports, one after the other.

ghost use Rattle.std.specs.Prelude.{◌≡◌, ◌≤◌, ◌<◌, ◌^◌, ◌-◌, length, Err, Some};
ghost use Rattle.ec_master.specs.declared.cycle.CycleFault.TheVariants.{Port};
ghost use Rattle.ec_run.specs.Cycles.{AddUp, IsCycle, begun_with, image_after};
ghost use Rattle.ec_run.specs.Outputs.{filled};

use crate::counts::Counts;
use crate::outputs::{Outputs, fill_all};
use ec_master::{CycleFault, Ports, Verdict, Work, run_cycle_in};

/// The most cycles: a count of 64 bits has no room for another one.
pub const MOST_CYCLES: u64 = u64::MAX;

/// Room for the works of cycles: what a cycle sends and takes. Before a cycle it does not matter
/// what they hold.
#[derive(Drop)]
pub struct Rooms {
    work: Work,
    sent: Work,
}

impl Rooms {
    /// Room for the works of cycles.
    pub fn new() -> Rooms {
        Rooms {
            work: Work::new(),
            sent: Work::new(),
        }
    }

    /// The items as they went out in the last cycle that was made in these rooms.
    pub fn sent(&self) -> &Work {
        &self.sent
    }
}

/// A work that is done again and again.
#[derive(Drop)]
pub struct Cycles {
    /// What is asked, with the outputs that the items were made with.
    pub asked: Work,
    /// What the items brought back in the last good cycle, if there was one.
    pub image: Option<Work>,
    /// How many cycles there were, by their ends.
    pub counts: Counts,
}

impl Cycles {
    /// A work of which no cycle was made.
    pub fn new(work: Work) -> Cycles
        ensures begun { result ≡ begun_with work }
        ensures adds_up { AddUp result.counts }
    {
        Cycles {
            asked: work,
            image: None,
            counts: Counts::none(),
        }
    }

    /// Gives the items that write their data from an image, one item after the other: it is what they are
    /// asked with from now on. Where the image ends, the data stay as they are.
    pub fn put_outputs(&mut self, image: &[u8])
        ensures { self.new ≡ record self.old { asked = filled image.now self.old.asked } }
    {
        fill_all(image, &mut self.asked);
    }

    /// Makes one cycle: its outputs are put into the items, which go out over the ports with counters of 0
    /// (`run_cycle`). On a good verdict, and only then, the image is what they bring back.
    pub fn cycle<P: Ports>(
        &mut self,
        ports: &mut P,
        outputs: Outputs<'_>,
        expected: &[u16],
    ) -> Result<Verdict, CycleFault>
        requires items { length expected.now ≡ length self.old.asked }
        requires room { self.old.counts.cycles < 2 ^ 64 - 1 }
        requires sum { AddUp self.old.counts }
        ensures cycle { IsCycle P.trips ports.old outputs.entry expected.now self.old result self.new
            ports.new }
        ensures adds_up { AddUp self.new.counts }
        ensures counted { result ≡ Err Port → P.failed ports.old < P.failed ports.new }
        ensures never_lower { P.failed ports.old ≤ P.failed ports.new }
    {
        self.cycle_in(ports, outputs, expected, &mut Rooms::new())
    }

    /// Makes one cycle as `cycle` does, in rooms that many cycles share: nothing but the items is copied.
    pub fn cycle_in<P: Ports>(
        &mut self,
        ports: &mut P,
        outputs: Outputs<'_>,
        expected: &[u16],
        rooms: &mut Rooms,
    ) -> Result<Verdict, CycleFault>
        requires items { length expected.now ≡ length self.old.asked }
        requires room { self.old.counts.cycles < 2 ^ 64 - 1 }
        requires sum { AddUp self.old.counts }
        ensures cycle { IsCycle P.trips ports.old outputs.entry expected.now self.old result self.new
            ports.new }
        ensures adds_up { AddUp self.new.counts }
        ensures counted { result ≡ Err Port → P.failed ports.old < P.failed ports.new }
        ensures never_lower { P.failed ports.old ≤ P.failed ports.new }
    {
        outputs.put(self.counts.cycles, &self.asked, &mut rooms.work);
        rooms.work.rewind();
        let ended = run_cycle_in(ports, &mut rooms.work, expected, &mut rooms.sent);
        self.counts = self.counts.with(ended);
        self.take(ended, &rooms.work);
        ended
    }

    /// Takes the image of a good cycle.
    fn take(&mut self, ended: Result<Verdict, CycleFault>, work: &Work)
        ensures { self.new ≡ record self.old { image = image_after ended self.old.image work.now } }
    {
        if ended == Ok(Verdict::Good) {
            put_image(&mut self.image, work);
        }
    }
}

/// Makes an image the items of a work.
fn put_image(image: &mut Option<Work>, work: &Work)
    ensures { image.new ≡ Some work.now }
{
    match image {
        Some(image) => image.assign(work),
        None => *image = Some(copy_of(work)),
    }
}

/// A second work with the same items.
fn copy_of(work: &Work) -> Work
    ensures { result ≡ work.now }
{
    let mut copy = Work::new();
    copy.assign(work);
    copy
}
