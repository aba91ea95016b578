//! The links of a line.

ghost use Rattle.std.specs.Prelude.{◌≡◌, ◌≢◌, ℕ, ◌+◌, ◌<◌, ◌≤◌, true};
ghost use Rattle.ec_ring.specs.Links.{is_up, first_down, last_down, is_whole};
ghost use Rattle.ec_ring.specs.Reach.{front, back, arrival_a, arrival_b, turns};

use crate::port::Port;
use ec_esc::MOST_CONTROLLERS;

/// The most slaves of a line.
pub const MAX_SLAVES: usize = MOST_CONTROLLERS;

/// The most links: one before each slave, and one behind the last.
pub const MAX_LINKS: usize = MAX_SLAVES + 1;

/// Which links of a line are up. Those past the line's own, which are one more than its slaves, don't count.
#[derive(Clone, Copy)]
pub struct Links {
    up: [bool; MAX_LINKS],
}

impl Links {
    /// All links up.
    pub fn new() -> Links
        ensures { (k : ℕ) → is_up result k ≡ true }
    {
        Links {
            up: [true; MAX_LINKS],
        }
    }

    /// Puts a link up or down; all others stay.
    pub fn set(&mut self, k: usize, up: bool)
        requires { k < MAX_LINKS }
        ensures at { is_up self.new k ≡ up }
        ensures others { (j : ℕ) → j ≢ k → is_up self.new j ≡ is_up self.old j }
    {
        self.up[k] = up;
    }

    /// Is the link up?
    pub fn is_up(&self, k: usize) -> bool
        requires { k < MAX_LINKS }
        ensures { result ≡ is_up self.now k }
    {
        self.up[k]
    }

    /// The first link that is down of those numbered below `count`.
    pub fn first_down(&self, count: usize) -> Option<usize>
        requires { count ≤ MAX_LINKS }
        ensures { result ≡ first_down self.now count }
    {
        for k in 0..count {
            if !self.is_up(k) {
                return Some(k);
            }
        }
        None
    }

    /// The last link that is down of those numbered below `count`.
    pub fn last_down(&self, count: usize) -> Option<usize>
        requires { count ≤ MAX_LINKS }
        ensures { result ≡ last_down self.now count }
    {
        let mut last = None;
        for k in 0..count {
            if !self.is_up(k) {
                last = Some(k);
            }
        }
        last
    }

    /// How many of a line's `slaves` slaves copy A passes: those before the first link that is down.
    pub(crate) fn front(&self, slaves: usize) -> usize
        requires { slaves < MAX_LINKS }
        ensures value { result ≡ front self.now slaves }
        ensures bound { result ≤ slaves }
    {
        self.first_down(slaves + 1).unwrap_or(slaves)
    }

    /// The first slave that copy B passes, which passes all from there on: those behind the last link that
    /// is down.
    pub(crate) fn back(&self, slaves: usize) -> usize
        requires { slaves < MAX_LINKS }
        ensures value { result ≡ back self.now slaves }
        ensures bound { result ≤ slaves }
    {
        self.last_down(slaves + 1).unwrap_or(slaves)
    }

    /// Is no link of a line down?
    fn is_whole(&self, slaves: usize) -> bool
        requires { slaves < MAX_LINKS }
        ensures { result ≡ is_whole self.now slaves }
    {
        self.last_down(slaves + 1).is_none()
    }

    /// Where copy A arrives, if it does.
    pub(crate) fn arrival_a(&self, slaves: usize) -> Option<Port>
        requires { slaves < MAX_LINKS }
        ensures { result ≡ arrival_a self.now slaves }
    {
        if !self.is_up(0) {
            None
        } else if self.is_whole(slaves) {
            Some(Port::B)
        } else {
            Some(Port::A)
        }
    }

    /// Where copy B arrives, if it does.
    pub(crate) fn arrival_b(&self, slaves: usize) -> Option<Port>
        requires { slaves < MAX_LINKS }
        ensures { result ≡ arrival_b self.now slaves }
    {
        if !self.is_up(slaves) {
            None
        } else if self.is_whole(slaves) {
            Some(Port::A)
        } else {
            Some(Port::B)
        }
    }

    /// Does copy B turn round at a closed port 0?
    pub(crate) fn turns(&self, slaves: usize) -> bool
        requires { slaves < MAX_LINKS }
        ensures { result ≡ turns self.now slaves }
    {
        self.is_up(slaves) && !self.is_whole(slaves)
    }
}
