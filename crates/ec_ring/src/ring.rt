//! A line of slaves with its links.

ghost use Rattle.std.specs.Prelude.{◌≡◌, ◌≢◌, ℕ, ◌<◌, ◌≤◌, ◌↔◌, true, length, map, slice_get, Some};
ghost use Rattle.std.specs.Prelude.{IfOk, IfErr, IsErr};
ghost use Rattle.std.specs.Borrow.{sem};
ghost use Rattle.std.specs.Option.{option_map};
ghost use Rattle.ec_app.specs.Lending.{with_controller};
ghost use Rattle.ec_app.specs.Slave.{step};
ghost use Rattle.ec_esc.specs.Pass.{frame_pass};
ghost use Rattle.ec_line.specs.Trip.{circulated};
ghost use Rattle.ec_ring.specs.Lending.{LendsSlave};
ghost use Rattle.ec_ring.specs.Links.{is_up};
ghost use Rattle.ec_ring.specs.Ring.{controllers, line_of, stepped, with_controllers, with_line};
ghost use Rattle.ec_ring.specs.Walk.{is_circulating, piece_pass, walked_from_a, walked_from_b, walked};

use crate::links::{Links, MAX_SLAVES};
use crate::port::Port;
use ec_app::Slave;
use ec_wire::FrameBuf;
use std::marker::Model;

/// Why slaves are no ring.
#[derive(Clone, Copy, PartialEq, Eq, Debug)]
pub enum RingFault {
    /// There are more than 256.
    TooMany = 1,
}

/// At most 256 slaves in their order on the line, and which of their links are up.
#[derive(Drop)]
pub struct Ring {
    slaves: Vec<Slave>,
    pub(crate) links: Links,
}

impl Model for Ring {
    ghost use Rattle.std.specs.Prelude.{◌≤◌, length};
    ghost use Rattle.ec_ring.specs.Ring.{RingState};
    ghost use Rattle.ec_ring.specs.declared.links.TheConstants.{MAX_SLAVES};

    ghost Value = { RingState };

    ghost view = { λ r. record { slaves = r.slaves.items; links = r.links } };

    ghost invariant = { λ r. length r.slaves.items ≤ MAX_SLAVES };
}

impl Ring {
    /// A ring of these slaves, with all links up. More than 256 slaves are refused, and handed back.
    pub fn new(slaves: Vec<Slave>) -> Result<Ring, (Vec<Slave>, RingFault)>
        ensures slaves { IfOk result (λ ring. ring.slaves ≡ slaves.items) }
        ensures links { IfOk result (λ ring. (k : ℕ) → is_up ring.links k ≡ true) }
        ensures too_many { IsErr result ↔ (MAX_SLAVES < length slaves.items) }
        ensures handed_back { IfErr result (λ e. e.0 ≡ slaves) }
    {
        if slaves.len() > MAX_SLAVES {
            return Err((slaves, RingFault::TooMany));
        }
        Ok(Ring {
            slaves,
            links: Links::new(),
        })
    }

    /// Puts the link at `k`, at most the number of slaves, up or down.
    pub fn set_link(&mut self, k: usize, up: bool)
        requires { k ≤ length self.old.slaves }
        ensures slaves { self.new.slaves ≡ self.old.slaves }
        ensures at { is_up self.new.links k ≡ up }
        ensures others { (j : ℕ) → j ≢ k → is_up self.new.links j ≡ is_up self.old.links j }
    {
        self.links.set(k, up);
    }

    /// The slaves in their order on the line.
    pub fn slaves(&self) -> &[Slave]
        ensures slaves { result.now ≡ self.now.slaves }
        ensures limit { length result.now ≤ MAX_SLAVES }
    {
        self.slaves.as_slice()
    }

    /// The slave at `k`.
    pub fn slave(&self, k: usize) -> &Slave
        requires { k < length self.now.slaves }
        ensures { slice_get self.now.slaves k ≡ Some result.now }
    {
        &self.slaves[k]
    }

    /// The slave at `k`, to be worked on; all else stays.
    pub fn slave_mut(&mut self, k: usize) -> &mut Slave
        requires { k < length self.old.slaves }
        ensures* writes_back { sem 𝓛 (LendsSlave self.entry k result) }
        ensures value { slice_get self.old.slaves k ≡ Some result.now }
    {
        &mut self.slaves[k]
    }

    /// Lets each slave take its step, at most one request and one mail (`Slave::step`).
    pub fn step_all(&mut self)
        ensures { self.new ≡ stepped self.old }
    {
        step_each(self.slaves.as_mut_slice());
    }

    /// Takes one copy of a frame over the line under these links, from a port to the port where it arrives,
    /// and answers it there; nothing where it was lost.
    ///
    /// - Copy A is processed by the slaves before the first link that is down. It arrives at port A, or
    ///   where no link is down at port B. It is lost where link 0 is down.
    /// - Copy B is processed by the slaves behind the last link that is down; before that it turns round at
    ///   a closed port 0, where it is destroyed if its first circulating bit is set, and else gets all of
    ///   them set. It arrives at port B. Where no link is down it arrives at port A, and no slave processes
    ///   it. It is lost where the last link of the line is down.
    pub fn walk(&mut self, from: Port, frame: FrameBuf, links: &Links) -> Option<(FrameBuf, Port)>
        ensures arrived { result ≡ (walked from links.now frame (line_of self.old)).arrived }
        ensures ring { self.new ≡ with_line self.old (walked from links.now frame (line_of self.old)).line }
    {
        let mut frame = frame;
        let port = self.walk_in(from, &mut frame, links)?;
        Some((frame, port))
    }

    /// Takes one copy of a frame over the line as `walk` does, in place, and says where it arrives, if it
    /// does.
    pub(crate) fn walk_in(
        &mut self,
        from: Port,
        frame: &mut FrameBuf,
        links: &Links,
    ) -> Option<Port>
        ensures arrived { option_map (λ port. (frame.new, port)) result
            ≡ (walked from links.now frame.old (line_of self.old)).arrived }
        ensures ring { self.new
            ≡ with_line self.old (walked from links.now frame.old (line_of self.old)).line }
    {
        match from {
            Port::A => self.walk_from_a(frame, links),
            Port::B => self.walk_from_b(frame, links),
        }
    }

    /// The way of copy A.
    fn walk_from_a(&mut self, frame: &mut FrameBuf, links: &Links) -> Option<Port>
        ensures arrived { option_map (λ port. (frame.new, port)) result
            ≡ (walked_from_a links.now frame.old (line_of self.old)).arrived }
        ensures ring { self.new
            ≡ with_line self.old (walked_from_a links.now frame.old (line_of self.old)).line }
    {
        let count = self.count();
        self.pass(frame, 0, links.front(count));
        links.arrival_a(count)
    }

    /// The way of copy B.
    fn walk_from_b(&mut self, frame: &mut FrameBuf, links: &Links) -> Option<Port>
        ensures arrived { option_map (λ port. (frame.new, port)) result
            ≡ (walked_from_b links.now frame.old (line_of self.old)).arrived }
        ensures ring { self.new
            ≡ with_line self.old (walked_from_b links.now frame.old (line_of self.old)).line }
    {
        let count = self.count();
        if links.turns(count) {
            if is_circulating(frame) {
                return None;
            }
            circulate(frame);
        }
        self.pass(frame, links.back(count), count);
        links.arrival_b(count)
    }

    /// How many slaves there are.
    pub(crate) fn count(&self) -> usize
        ensures count { result ≡ length self.now.slaves }
        ensures limit { result ≤ MAX_SLAVES }
    {
        self.slaves.len()
    }

    /// Passes a frame through the slaves from one number on and below another.
    fn pass(&mut self, frame: &mut FrameBuf, from: usize, to: usize)
        requires order { from ≤ to }
        requires end { to ≤ length self.old.slaves }
        ensures frame { frame.new ≡ (piece_pass from to (line_of self.old) frame.old).frame }
        ensures ring { self.new ≡ with_line self.old (piece_pass from to (line_of self.old) frame.old).line }
    {
        pass_each(self.slaves.as_mut_slice(), frame, from, to);
    }
}

/// Lets each slave take its step.
fn step_each(slaves: &mut [Slave])
    ensures { slaves.new ≡ map step slaves.old }
{
    for slave in slaves.iter_mut() {
        slave.step();
    }
}

/// Does the first datagram have its circulating bit set?
fn is_circulating(frame: &FrameBuf) -> bool
    ensures { result ≡ is_circulating frame.now }
{
    // For the prover: a frame that is counted has a datagram.
    let _count = frame.count();
    frame.circulating(0)
}

/// Sets the circulating bit of each datagram.
fn circulate(frame: &mut FrameBuf)
    ensures { frame.new ≡ circulated frame.old }
{
    let count = frame.count();
    for k in 0..count {
        frame.set_circulating(k, true);
    }
}

/// Passes a frame through the slaves from one number on and below another, in rising order.
fn pass_each(slaves: &mut [Slave], frame: &mut FrameBuf, from: usize, to: usize)
    requires order { from ≤ to }
    requires end { to ≤ length slaves.old }
    ensures frame { frame.new ≡ (piece_pass from to (controllers slaves.old) frame.old).frame }
    ensures slaves { slaves.new
        ≡ with_controllers slaves.old (piece_pass from to (controllers slaves.old) frame.old).line }
{
    for k in from..to {
        pass_one(&mut slaves[k], frame);
    }
}

/// Passes a frame through one slave, by its controller.
fn pass_one(slave: &mut Slave, frame: &mut FrameBuf)
    ensures frame { frame.new ≡ (frame_pass slave.old.controller frame.old).frame }
    ensures slave { slave.new ≡ with_controller slave.old (frame_pass slave.old.controller frame.old).state }
{
    slave.controller_mut().process(frame);
}
