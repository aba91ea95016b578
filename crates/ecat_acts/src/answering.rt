//! A task whose answers are told apart from the lines that a master writes of its own.

use ec_regs::AlState;
use ec_services::MasterFault;
use ecat_master::{Answer, Asked, Known, Report, Task};
use ecat_text::Lines;
use std::cell::Cell;
use std::io::{self, Write};

/// A task while whose answers are written a cell says that the lines are not the master's own.
#[derive(Drop)]
pub struct Answering<'a, D> {
    task: D,
    are_own: &'a Cell<bool>,
}

impl<'a, D: Task> Answering<'a, D> {
    /// This task, whose answers the cell tells apart.
    pub fn new(task: D, are_own: &'a Cell<bool>) -> Answering<'a, D> {
        Answering { task, are_own }
    }
}

impl<D: Task> Task for Answering<'_, D> {
    ghost listens = { λ before are_others later. D.listens before.task are_others later.task };

    ghost held = { λ answering. D.held answering.task };

    fn listen(&mut self) -> bool {
        self.task.listen()
    }

    fn outputs(&self) -> &[u8] {
        self.task.outputs()
    }

    fn report(&mut self, report: &Report<'_>) {
        self.task.report(report);
    }

    fn ask(&mut self) -> Option<Asked> {
        self.task.ask()
    }

    fn told(&mut self, answer: Result<Answer, MasterFault>) {
        self.task.told(answer);
    }

    fn leave(&self) -> Option<AlState> {
        self.task.leave()
    }

    fn show<V: Write>(
        &mut self,
        known: &Known<'_, '_, '_>,
        errors: &mut Lines<'_, V>,
    ) -> io::Result<()> {
        self.task.show(known, errors)
    }

    fn answer<W: Write>(
        &mut self,
        known: &Known<'_, '_, '_>,
        lines: &mut Lines<'_, W>,
    ) -> io::Result<()> {
        self.are_own.set(false);
        let answered = self.task.answer(known, lines);
        self.are_own.set(true);
        answered
    }
}
