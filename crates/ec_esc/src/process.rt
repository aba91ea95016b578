//! What a controller does with a frame: each datagram that addresses it goes to what its command does
//! (IEC 61158-4-12, processing of datagrams).
ghost use Rattle.std.specs.Prelude.{◌≡◌, ◌<◌, length, slice_set, true};
ghost use Rattle.ec_regs.specs.Bits.{AreBytes};
ghost use Rattle.ec_wire.specs.Command.{addressing};
ghost use Rattle.ec_wire.specs.Datagram.{nth};
ghost use Rattle.ec_esc.specs.Pass.{pass, frame_pass, effect, is_addressed, Arrives, IsServed};
ghost use Rattle.ec_esc.specs.Place.{address_at, size_at};

use crate::addressing::count_up;
use crate::controller::Controller;
use ec_wire::{Command, FrameBuf};

/// What the type of a slice says of it: each element is a byte.
pub(crate) fn are_bytes(bytes: &[u8])
    ensures { AreBytes bytes.now }
{
    // For the prover: the elements of a slice that is read are bytes.
    let _length = bytes.len();
}

impl Controller {
    /// One pass of a frame: its datagrams are processed from left to right, and each finds the memory as
    /// the one before left it. NOP, BRW, ARMW and FRMW go through unchanged.
    pub fn process(&mut self, frame: &mut FrameBuf)
        ensures frame { frame.new ≡ (frame_pass self.old frame.old).frame }
        ensures state { self.new ≡ (frame_pass self.old frame.old).state }
    {
        self.survey();
        self.pass_each(frame);
    }

    /// Has ready what the FMMUs reach all together, by which most datagrams are seen to go elsewhere.
    fn survey(&mut self)
        ensures { self.new ≡ self.old }
    {
        self.memory.survey();
    }

    /// The pass of each datagram of a frame, from left to right.
    fn pass_each(&mut self, frame: &mut FrameBuf)
        ensures frame { frame.new ≡ (frame_pass self.old frame.old).frame }
        ensures state { self.new ≡ (frame_pass self.old frame.old).state }
    {
        for k in 0..frame.count() {
            self.pass_datagram(frame, k);
        }
    }

    /// What the types say of a controller and of a datagram that comes to it.
    pub(crate) fn arrival(&self, frame: &FrameBuf, k: usize)
        requires { k < length frame.now }
        ensures { Arrives self.now (nth frame.now k) }
    {
        are_bytes(self.memory.bytes());
        are_bytes(self.shown.as_slice());
        are_bytes(frame.data(k));
        // For the prover: a counter that is read has 16 bits.
        let _counter = frame.counter(k);
    }

    /// The pass of the datagram at `k`; all others stay.
    fn pass_datagram(&mut self, frame: &mut FrameBuf, k: usize)
        requires { k < length frame.old }
        ensures frame { frame.new ≡ slice_set frame.old k (pass self.old (nth frame.old k)).datagram }
        ensures state { self.new ≡ (pass self.old (nth frame.old k)).state }
    {
        self.arrival(frame, k);
        let command = frame.command(k);
        self.serve(command, frame, k);
        if command.counts_adp() {
            count_up(frame, k);
        }
    }

    /// Serves the datagram at `k`, whose command this is, where it addresses the controller; its address, and
    /// all others, stay.
    fn serve(&mut self, command: Command, frame: &mut FrameBuf, k: usize)
        requires inside { k < length frame.old }
        requires arrives { Arrives self.old (nth frame.old k) }
        ensures { IsServed (effect command self.old (address_at frame.old k)
            (size_at frame.old k)) k frame.old self.old frame.new self.new }
    {
        if self.is_addressed(command.addressing(), frame, k) {
            self.carry_out(command, frame, k);
        }
    }

    /// Executes the datagram at `k`, which addresses this controller; its address, and all others, stay.
    fn carry_out(&mut self, command: Command, frame: &mut FrameBuf, k: usize)
        requires inside { k < length frame.old }
        requires arrives { Arrives self.old (nth frame.old k) }
        requires addressed { is_addressed (addressing command) self.old (address_at frame.old k) ≡ true }
        ensures { IsServed (effect command self.old (address_at frame.old k)
            (size_at frame.old k)) k frame.old self.old frame.new self.new }
    {
        match command {
            Command::Aprd | Command::Fprd => self.range_read(frame, k),
            Command::Apwr | Command::Fpwr | Command::Bwr => self.range_write(frame, k),
            Command::Aprw | Command::Fprw => self.range_exchange(frame, k),
            Command::Brd => self.broadcast_read(frame, k),
            Command::Lrd => self.logical_read(frame, k),
            Command::Lwr => self.logical_write(frame, k),
            Command::Lrw => self.logical_exchange(frame, k),
            Command::Nop | Command::Brw | Command::Armw | Command::Frmw => {}
        }
    }
}
