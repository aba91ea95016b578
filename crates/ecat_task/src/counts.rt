//! How often a control task spoke.

use crate::desk::Taking;
use crate::held::Refused;
use ecat_text::Lines;
use std::io::{self, Write};

/// How often a task spoke, and how.
#[derive(Clone, Copy)]
pub(crate) struct Counts {
    /// How many orders were taken.
    orders: u64,
    /// How many of them answered the last report.
    prompt: u64,
    /// How many packets were refused.
    refused: u64,
    /// Why the last one of those was.
    why: Option<Refused>,
    /// How many cycles had outputs that were stale.
    stale: u64,
    /// How many reports could not be sent.
    unsent: u64,
    /// How many questions came that were not asked before.
    questions: u64,
    /// How many came once more.
    again: u64,
    /// How many came while another one was under way.
    busy: u64,
}

impl Counts {
    /// Of a task that has not spoken.
    pub(crate) fn none() -> Counts {
        Counts {
            orders: 0,
            prompt: 0,
            refused: 0,
            why: None,
            stale: 0,
            unsent: 0,
            questions: 0,
            again: 0,
            busy: 0,
        }
    }

    /// With an order more, which answered the last report or did not.
    pub(crate) fn with_order(self, is_prompt: bool) -> Counts {
        Counts {
            orders: self.orders.saturating_add(1),
            prompt: self.prompt.saturating_add(u64::from(is_prompt)),
            ..self
        }
    }

    /// With a packet more that was refused.
    pub(crate) fn with_refused(self, why: Refused) -> Counts {
        Counts {
            refused: self.refused.saturating_add(1),
            why: Some(why),
            ..self
        }
    }

    /// With a cycle more whose outputs were stale.
    pub(crate) fn with_stale(self) -> Counts {
        Counts {
            stale: self.stale.saturating_add(1),
            ..self
        }
    }

    /// With a report more that could not be sent.
    pub(crate) fn with_unsent(self) -> Counts {
        Counts {
            unsent: self.unsent.saturating_add(1),
            ..self
        }
    }

    /// With a question more.
    pub(crate) fn with_question(self, taking: Taking) -> Counts {
        match taking {
            Taking::New => Counts {
                questions: self.questions.saturating_add(1),
                ..self
            },
            Taking::UnderWay | Taking::Again => Counts {
                again: self.again.saturating_add(1),
                ..self
            },
            Taking::Busy => Counts {
                busy: self.busy.saturating_add(1),
                ..self
            },
        }
    }

    /// Writes how many questions came, if some did.
    fn put_questions<W: Write>(&self, lines: &mut Lines<'_, W>) -> io::Result<()> {
        let Counts {
            questions,
            again,
            busy,
            ..
        } = *self;
        if questions == 0 {
            return Ok(());
        }
        lines.text(format_args!(
            "task: questions {questions}, once more {again}, beside another {busy}"
        ))?;
        lines.end()
    }

    /// Writes them, and why the last packet was refused that was, if one was.
    pub(crate) fn put<W: Write>(&self, lines: &mut Lines<'_, W>) -> io::Result<()> {
        let Counts {
            orders,
            prompt,
            refused,
            why,
            stale,
            unsent,
            ..
        } = *self;
        lines.text(format_args!(
            "task: orders {orders}, {prompt} to the last report, stale cycles {stale}, \
            unsent reports {unsent}"
        ))?;
        lines.end()?;
        self.put_questions(lines)?;
        match why {
            Some(Refused::Packet(fault)) => {
                lines.text(format_args!("task: refused packets {refused}, the last one: {fault}"))?;
                lines.end()
            }
            Some(Refused::Outputs(count)) => {
                lines.text(format_args!(
                    "task: refused packets {refused}, the last one: {count} bytes of outputs"
                ))?;
                lines.end()
            }
            None => Ok(()),
        }
    }
}
