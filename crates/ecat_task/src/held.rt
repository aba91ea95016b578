//! The outputs that a control task holds.

ghost use Rattle.std.specs.Prelude.{◌≡◌, ℕ, Bool, List, Result};
ghost use Rattle.std.specs.Option.{option_map};
ghost use Rattle.ec_io.specs.Question.{IsQuestion, QuestionValue};
ghost use Rattle.ecat_task.specs.Held.{Become, Takes};
ghost use Rattle.ecat_task.specs.declared.held.Refused.{Refused};

use ec_io::{Order, PacketFault};

/// A packet that is a question leaves the outputs, whatever they are and whatever comes of it.
pub fn questions_leave()
    ensures { (packet before later : List ℕ) (v : QuestionValue) (taken : Result Bool Refused)
        → IsQuestion packet v → Takes packet before taken later → later ≡ before }
{}

/// Why a packet is no order that can be taken.
#[derive(Clone, Copy, PartialEq, Eq, Debug)]
pub enum Refused {
    /// It is no order.
    Packet(PacketFault),
    /// It has so many bytes of outputs, which are not as many as there are.
    Outputs(usize),
}

/// Outputs, always as many bytes, and for how many cycles no order of them came.
#[derive(Drop)]
pub struct Held {
    /// The outputs.
    pub(crate) outputs: Vec<u8>,
    /// What they become where no order comes any more; they stay where it is nothing.
    pub(crate) rest: Option<Vec<u8>>,
    /// After how many cycles without an order they are stale; never where it is nothing.
    stale_after: Option<u32>,
    /// How many cycles there were since the last order.
    silent: u32,
    /// The number of the cycle that the last order has seen.
    seen: Option<u64>,
}

impl Held {
    /// These outputs, which become others where no order comes for so many cycles.
    pub fn new(outputs: Vec<u8>, rest: Option<Vec<u8>>, stale_after: Option<u32>) -> Held
        ensures outputs { result.outputs ≡ outputs }
        ensures rest { result.rest ≡ rest }
    {
        Held {
            outputs,
            rest,
            stale_after,
            silent: 0,
            seen: None,
        }
    }

    /// The outputs.
    pub fn outputs(&self) -> &[u8]
        ensures { result.now ≡ self.now.outputs.items }
    {
        self.outputs.as_slice()
    }

    /// The number of the cycle of the report that the last order has seen, if it has seen one.
    pub fn seen(&self) -> Option<u64>
        ensures { result ≡ self.now.seen }
    {
        self.seen
    }

    /// Did no order come for so many cycles that the outputs are stale?
    pub fn is_stale(&self) -> bool {
        match self.stale_after {
            Some(cycles) => self.silent >= cycles,
            None => false,
        }
    }

    /// Takes a packet, and says whether the outputs are those that it orders now. An order without outputs
    /// leaves them: it is of somebody who wants reports alone. A packet that is refused leaves all.
    pub fn take(&mut self, packet: &[u8]) -> Result<bool, Refused>
        ensures taken { Takes packet.now self.old.outputs.items result self.new.outputs.items }
        ensures rest { self.new.rest ≡ self.old.rest }
    {
        let order = match Order::read(packet) {
            Ok(order) => order,
            Err(fault) => return Err(Refused::Packet(fault)),
        };
        if !order.outputs.is_empty() {
            if order.outputs.len() != self.outputs.len() {
                return Err(Refused::Outputs(order.outputs.len()));
            }
            self.outputs.as_mut_slice().copy_from_slice(order.outputs);
        }
        self.silent = 0;
        self.seen = order.seen;
        Ok(!order.outputs.is_empty())
    }

    /// One cycle more begins. Where no order came for it, the outputs may be stale now, and become what they
    /// are to be then; it says whether they did.
    pub fn begin_cycle(&mut self, is_ordered: bool) -> bool
        ensures becomes { Become (option_map (λ rest. rest.items) self.old.rest) self.old.outputs.items result
            self.new.outputs.items }
        ensures rest { self.new.rest ≡ self.old.rest }
    {
        if is_ordered || self.is_stale() {
            return false;
        }
        self.silent = self.silent.saturating_add(1);
        self.is_stale() && self.take_rest()
    }

    /// The outputs become what they are to be where no order comes any more.
    fn take_rest(&mut self) -> bool
        ensures becomes { Become (option_map (λ rest. rest.items) self.old.rest) self.old.outputs.items result
            self.new.outputs.items }
        ensures rest { self.new.rest ≡ self.old.rest }
    {
        match &self.rest {
            Some(rest) if rest.len() == self.outputs.len() => {
                self.outputs.as_mut_slice().copy_from_slice(rest.as_slice());
                true
            }
            _ => false,
        }
    }
}
