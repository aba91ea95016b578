//! What a slave adds to the working counter of an item, and what of it lacks where slaves are missing.

ghost use Rattle.std.specs.Prelude.{◌≡◌, ◌==◌, ◌<◌, length};
ghost use Rattle.ecat_judge.specs.declared.share.Missing.TheVariants.{Two};
ghost use Rattle.ecat_judge.specs.Share.{has_inputs_of, lacking, part, part_at, share_at, share_of};
ghost use Rattle.ecat_judge.specs.Share.{whole};

use ec_wire::Kind;

/// What a slave adds to the working counter of an item.
#[derive(Clone, Copy, PartialEq, Eq, Debug)]
pub struct Share {
    /// For inputs that are read there.
    pub inputs: u8,
    /// For outputs that are written there.
    pub outputs: u8,
    /// For registers.
    pub registers: u8,
}

/// What may be missing of a line.
#[derive(Clone, Copy, PartialEq, Eq, Debug)]
pub enum Missing {
    /// The slaves from a place on, in front of another.
    Slaves(usize, usize),
    /// The inputs alone of the slave at a place.
    Inputs(usize),
    /// The outputs alone of the slave at a place.
    Outputs(usize),
    /// The slaves at two places.
    Two(usize, usize),
}

impl Missing {
    /// Are the inputs of the slave at a place missing?
    pub fn has_inputs_of(self, place: usize) -> bool
        ensures { result ≡ has_inputs_of self place }
    {
        match self {
            Missing::Slaves(from, to) => from <= place && place < to,
            Missing::Inputs(slave) => place == slave,
            Missing::Outputs(_) => false,
            Missing::Two(one, other) => place == one || place == other,
        }
    }
}

impl Share {
    /// The share of a slave that adds so much to the counter of an item of a kind, which lies in registers or
    /// not: of an exchange 1 is for the inputs and 2 for the outputs.
    pub fn of(gain: u16, kind: Kind, registers: bool) -> Share
        requires { gain < 4 }
        ensures { result ≡ share_of gain kind registers }
    {
        let gain = gain as u8;
        let (inputs, outputs, others) = match kind {
            Kind::Brd => (0, 0, gain),
            Kind::Lrd => (gain, 0, 0),
            Kind::Lwr => (0, gain, 0),
            Kind::Lrw => (gain % 2, gain - gain % 2, 0),
            Kind::Fprd => {
                if registers {
                    (0, 0, gain)
                } else {
                    (gain, 0, 0)
                }
            }
            Kind::Fpwr => {
                if registers {
                    (0, 0, gain)
                } else {
                    (0, gain, 0)
                }
            }
        };
        Share {
            inputs,
            outputs,
            registers: others,
        }
    }

    /// All that the slave adds.
    pub fn whole(&self) -> u16
        ensures { result ≡ whole self.now }
    {
        u16::from(self.inputs) + u16::from(self.outputs) + u16::from(self.registers)
    }

    /// What lacks of it at a place, where this is missing.
    fn part(&self, missing: Missing, place: usize) -> u16
        ensures { result ≡ part missing self.now place }
    {
        match missing {
            Missing::Slaves(from, to) => {
                if from <= place && place < to {
                    self.whole()
                } else {
                    0
                }
            }
            Missing::Inputs(slave) => {
                if place == slave {
                    u16::from(self.inputs)
                } else {
                    0
                }
            }
            Missing::Outputs(slave) => {
                if place == slave {
                    u16::from(self.outputs)
                } else {
                    0
                }
            }
            Missing::Two(one, other) => {
                if place == one || place == other {
                    self.whole()
                } else {
                    0
                }
            }
        }
    }
}

/// What lacks of the share of the slave at a place, where this is missing.
fn part_at(shares: &[Share], missing: Missing, place: usize) -> u16
    requires { place < length shares.now }
    ensures { result ≡ part_at missing shares.now place }
{
    shares[place].part(missing, place)
}

/// Does a counter lack just so much where this is missing, of slaves with these shares?
pub fn lacks(shares: &[Share], missing: Missing, short: u16) -> bool
    ensures { result ≡ (lacking missing shares.now == short) }
{
    let mut left = short;
    for place in 0..shares.len() {
        let part = part_at(shares, missing, place);
        if left < part {
            return false;
        }
        left -= part;
    }
    left == 0
}

/// What the slave at a place adds, if there is one.
fn whole_at(shares: &[Share], place: usize) -> u16
    ensures { result ≡ whole (share_at shares.now place) }
{
    match shares.get(place) {
        Some(share) => share.whole(),
        None => 0,
    }
}

/// Does a counter lack just so much where two slaves are missing?
pub(crate) fn two_lack(shares: &[Share], one: usize, other: usize, short: u16) -> bool
    requires { one < other }
    ensures { result ≡ (lacking (Two one other) shares.now == short) }
{
    let both = u32::from(whole_at(shares, one)) + u32::from(whole_at(shares, other));
    both == u32::from(short)
}
