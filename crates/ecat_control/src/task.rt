//! A control task whose outputs are set by lines of an input.

ghost use Rattle.std.specs.Prelude.{◌≡◌, false};
ghost use Rattle.ecat_control.specs.Set.{Become, BecomeBy, has_set, is_set};

use crate::answer::{Answer, put_answers};
use crate::asking::Asking;
use crate::change::Change;
use crate::held::Outputs;
use crate::input::Commands;
use crate::reading::read_answer;
use crate::refusal::{Fault, Refusal};
use crate::request::{Request, SET};
use arrayvec::ArrayVec;
use ec_acyclic::Answer as ServiceAnswer;
use ec_regs::AlState;
use ec_services::MasterFault;
use ecat_master::{Asked, Known, Report, Task};
use ecat_serve::LINE_ROOM;
use ecat_serve::lines::InputLine;
use ecat_signals::Signal;
use ecat_text::Lines;
use std::cell::Cell;
use std::io::{self, Read, Write};
use std::os::fd::AsRawFd;

/// How many lines are taken between two cycles at the most, so that no input can hold one.
pub const MOST_LINES: usize = 32;

/// The task of who speaks to a master on its input: before each cycle the lines that came are done, 32 of
/// them at the most, and behind it each is answered.
#[derive(Drop)]
pub struct ControlTask<'a, 's, I> {
    commands: Commands<I>,
    outputs: Outputs,
    change: Change,
    /// What the lines came to that were taken before this cycle.
    answers: ArrayVec<Answer, MOST_LINES>,
    /// What a slave is asked for.
    asking: Asking,
    /// Whether the master is to end.
    stops: &'a Cell<bool>,
    /// The state in which the slaves are to be left, where it was said.
    leave: Option<AlState>,
    /// The signals that lines may name.
    signals: &'s [Signal],
}

impl<'a, 's, I: Read + AsRawFd> ControlTask<'a, 's, I> {
    /// The task of who speaks there, over these outputs; lines name these signals, each of which lies in its
    /// item. The cell is told where the master is to end: by `quit` or `leave`, or once the input has ended.
    pub fn new(
        input: I,
        outputs: Outputs,
        signals: &'s [Signal],
        stops: &'a Cell<bool>,
    ) -> ControlTask<'a, 's, I> {
        ControlTask {
            commands: Commands::of(input),
            outputs,
            change: Change::none(),
            answers: ArrayVec::new(),
            asking: Asking::Nothing,
            stops,
            leave: None,
            signals,
        }
    }

    /// What the next line asks, if one has come and the master is not to end; the places of a `set` are those
    /// of the change then.
    fn read_next(&mut self) -> Option<Result<Request, Refusal>>
        ensures { self.new.outputs ≡ self.old.outputs }
    {
        if self.stops.get() {
            return None;
        }
        let mut room = [0; LINE_ROOM];
        match self.commands.take(&mut room)? {
            InputLine::Long => Some(Err(Refusal {
                fault: Fault::TooLong,
                wanted: "1024 bytes at most",
            })),
            InputLine::Whole(count) => {
                let line = room.get(..count).unwrap_or(&[]);
                Some(Request::read(line, self.signals, &mut self.change))
            }
        }
    }

    /// Takes the next line that came, if one has, does it, and answers whether outputs are others by it.
    fn take_next(&mut self) -> Option<bool>
        ensures outputs { BecomeBy 1 self.old.outputs (has_set result) self.new.outputs }
        ensures spans { self.new.outputs.spans ≡ self.old.outputs.spans }
    {
        let request = self.read_next()?;
        let answer = self.take(request);
        let _ = self.answers.try_push(answer);
        Some(answer.has_set())
    }

    /// Does what a line asks, unless it is refused, and answers what it is to be answered by.
    fn take(&mut self, request: Result<Request, Refusal>) -> Answer
        ensures outputs { BecomeBy 1 self.old.outputs (is_set result) self.new.outputs }
        ensures spans { self.new.outputs.spans ≡ self.old.outputs.spans }
    {
        match request {
            Ok(Request::Set) => self.set(),
            Ok(request) => self.take_other(request),
            Err(refusal) => Answer::Refused(refusal),
        }
    }

    /// Changes the outputs by the change, or none of them.
    fn set(&mut self) -> Answer
        ensures outputs { BecomeBy 1 self.old.outputs (is_set result) self.new.outputs }
        ensures spans { self.new.outputs.spans ≡ self.old.outputs.spans }
    {
        match self.outputs.set(&self.change) {
            Ok(()) => Answer::Set,
            Err(fault) => Answer::Refused(Refusal { fault, wanted: SET }),
        }
    }

    /// Does what a line asks that sets nothing.
    fn take_other(&mut self, request: Request) -> Answer
        ensures kept { self.new.outputs ≡ self.old.outputs }
        ensures nothing_set { is_set result ≡ false }
    {
        match request {
            Request::Leave(state) => {
                self.leave = Some(state);
                self.stops.set(true);
                Answer::Done
            }
            Request::Quit => {
                self.stops.set(true);
                Answer::Done
            }
            request => read_answer(request, &self.outputs, &mut self.asking),
        }
    }

    /// Takes the lines that came, up to so many, and answers whether outputs are others by them.
    fn take_all(&mut self) -> bool
        ensures { Become self.old.outputs result self.new.outputs }
    {
        let mut are_others = false;
        for _line in 0..MOST_LINES {
            match self.take_next() {
                Some(set) => are_others |= set,
                None => break,
            }
        }
        are_others
    }
}

impl<I: Read + AsRawFd> Task for ControlTask<'_, '_, I> {
    ghost listens = { λ before are_others later. Become before.outputs are_others later.outputs };

    ghost held = { λ task. task.outputs.bytes.items };

    fn listen(&mut self) -> bool {
        let are_others = self.take_all();
        if self.commands.is_over() {
            self.stops.set(true);
        }
        are_others
    }

    fn outputs(&self) -> &[u8] {
        self.outputs.bytes()
    }

    fn report(&mut self, _report: &Report<'_>) {}

    fn leave(&self) -> Option<AlState> {
        self.leave
    }

    fn ask(&mut self) -> Option<Asked> {
        self.asking.begin()
    }

    fn told(&mut self, answer: Result<ServiceAnswer, MasterFault>) {
        self.asking.end(answer);
    }

    fn answer<W: Write>(
        &mut self,
        known: &Known<'_, '_, '_>,
        lines: &mut Lines<'_, W>,
    ) -> io::Result<()> {
        if self.stops.get() {
            self.asking.end(Err(MasterFault::NoAnswer));
        }
        let written = put_answers(self.answers.as_slice(), self.signals, known, lines);
        self.answers.clear();
        written?;
        self.asking.put(lines)
    }
}
