//! A task whose master is asked by questions that come to it.

use crate::text::Text;
use ec_acyclic::Answer as ServiceAnswer;
use ec_io::MAX_TEXT;
use ec_regs::AlState;
use ec_services::MasterFault;
use ecat_control::{Answer, Asking, Change, Outputs, Request, put_answers, read_answer};
use ecat_master::{Asked, Known, Report, Task};
use ecat_signals::Signal;
use ecat_task::Questioned;
use ecat_text::Lines;
use std::io::{self, Write};

/// The most bytes of an answer.
pub const MOST_ANSWER: usize = 65_536;

/// A task at whose socket a running master is asked.
///
/// Behind each cycle the question that waits is taken, if one does: what it reads is written with what the
/// master knows then, and a slave that it asks is asked behind the next cycles. Once its whole answer is
/// written, that goes out in replies. Its outputs are those of the task around which it is.
#[derive(Drop)]
pub struct DoorTask<D> {
    task: D,
    /// How many bytes each item has.
    outputs: Outputs,
    /// The signals that questions may name.
    signals: Vec<Signal>,
    /// Room for a line that sets outputs, which is refused.
    change: Change,
    /// What a slave is asked for.
    asking: Asking,
    /// Whether it is a question that a slave is being asked for.
    is_question: bool,
    /// The answer.
    text: Text,
}

impl<D: Task + Questioned> DoorTask<D> {
    /// The door of this task, over outputs of these items, in which these signals lie; the text is the room
    /// for an answer.
    pub fn new(task: D, outputs: Outputs, signals: Vec<Signal>, text: Text) -> DoorTask<D> {
        DoorTask {
            task,
            outputs,
            signals,
            change: Change::none(),
            asking: Asking::Nothing,
            is_question: false,
            text,
        }
    }

    /// The task around which it is.
    pub fn task(&self) -> &D {
        &self.task
    }

    /// Takes the question that waits, if one does and the answer to the one before is on its way, and writes
    /// what it is answered by.
    fn take_question(&mut self, known: &Known<'_, '_, '_>) -> io::Result<()> {
        let mut room = [0; MAX_TEXT];
        let Some(count) = self.task.question(&mut room) else {
            return Ok(());
        };
        let line = room.get(..count).unwrap_or(&[]);
        let signals = self.signals.as_slice();
        let answer = match Request::read(line, signals, &mut self.change) {
            Ok(request) => read_answer(request, &self.outputs, &mut self.asking),
            Err(refusal) => Answer::Refused(refusal),
        };
        put_answers(&[answer], signals, known, &mut Lines::new(&mut self.text))
    }

    /// Sends the next replies of the answer, where it is all written, and forgets it behind the last one.
    fn reply(&mut self) {
        let is_whole = !self.text.is_empty() && !self.asking.is_busy();
        if is_whole && self.task.reply(self.text.as_slice()) {
            self.text.clear();
        }
    }
}

impl<D: Task + Questioned> Task for DoorTask<D> {
    ghost listens = { λ before are_others later. D.listens before.task are_others later.task };

    ghost held = { λ door. D.held door.task };

    fn listen(&mut self) -> bool {
        self.task.listen()
    }

    fn outputs(&self) -> &[u8] {
        self.task.outputs()
    }

    fn report(&mut self, report: &Report<'_>) {
        self.task.report(report);
    }

    fn ask(&mut self) -> Option<Asked> {
        let asked = self.asking.begin();
        self.is_question = asked.is_some();
        match asked {
            Some(asked) => Some(asked),
            None => self.task.ask(),
        }
    }

    fn told(&mut self, answer: Result<ServiceAnswer, MasterFault>) {
        if self.is_question {
            self.is_question = false;
            self.asking.end(answer);
        } else {
            self.task.told(answer);
        }
    }

    fn leave(&self) -> Option<AlState> {
        self.task.leave()
    }

    fn show<V: Write>(
        &mut self,
        known: &Known<'_, '_, '_>,
        errors: &mut Lines<'_, V>,
    ) -> io::Result<()> {
        self.task.show(known, errors)
    }

    fn answer<W: Write>(
        &mut self,
        known: &Known<'_, '_, '_>,
        lines: &mut Lines<'_, W>,
    ) -> io::Result<()> {
        if self.take_question(known).is_err() {
            self.text.clear();
        }
        let _ = self.asking.put(&mut Lines::new(&mut self.text));
        self.reply();
        self.task.answer(known, lines)
    }
}
