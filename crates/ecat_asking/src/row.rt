//! What has come of an answer.

ghost use Rattle.std.specs.Prelude.{◌≡◌, [], IfOk, false};
ghost use Rattle.ec_io.specs.Reply.{reply_value};
ghost use Rattle.ecat_asking.specs.Row.{and_next, begun, came, taken};

use ec_io::Reply;
use std::alloc::{AllocError, Global};

/// What has come of the answer to a question: the text of its replies from the first one on.
#[derive(Drop)]
pub struct Row {
    /// The number of the question.
    pub(crate) number: u64,
    /// The text of the replies that came.
    pub(crate) text: Vec<u8>,
    /// How many they are: the place of the one that follows.
    pub(crate) next: u16,
    /// Whether the answer's last one is among them.
    pub(crate) is_whole: bool,
}

impl Row {
    /// Of the question of this number nothing has come.
    pub fn new(alloc: Global, number: u64) -> Row
        ensures number { result.number ≡ number }
        ensures text { result.text.items ≡ [] }
        ensures part { result.is_whole ≡ false }
    {
        Row {
            number,
            text: Vec::new(alloc),
            next: 0,
            is_whole: false,
        }
    }

    /// The number of the question.
    pub fn number(&self) -> u64
        ensures { result ≡ self.now.number }
    {
        self.number
    }

    /// The text of the replies that came.
    pub fn text(&self) -> &[u8]
        ensures { result.now ≡ self.now.text.items }
    {
        self.text.as_slice()
    }

    /// Has the whole answer come?
    pub fn is_whole(&self) -> bool
        ensures { result ≡ self.now.is_whole }
    {
        self.is_whole
    }

    /// Forgets what has come.
    pub fn clear(&mut self)
        ensures number { self.new.number ≡ self.old.number }
        ensures text { self.new.text.items ≡ [] }
        ensures part { self.new.is_whole ≡ false }
    {
        self.text.clear();
        self.next = 0;
        self.is_whole = false;
    }

    /// Takes a reply: the one that follows is put behind the others, and a first one begins once more, up to
    /// the last one. All others leave it, and so do those of other questions. The error is want of memory.
    pub fn take(&mut self, reply: &Reply<'_>) -> Result<(), AllocError>
        ensures taken { IfOk result (λ _. came self.new
            ≡ taken self.old.number (reply_value reply.now) (came self.old)) }
        ensures number { self.new.number ≡ self.old.number }
    {
        if self.is_whole || reply.number != self.number {
            return Ok(());
        }
        if reply.place == self.next {
            return self.go_on(reply);
        }
        if reply.place == 0 {
            return self.begin(reply);
        }
        Ok(())
    }

    /// Puts the text of the reply that follows behind the others.
    fn go_on(&mut self, reply: &Reply<'_>) -> Result<(), AllocError>
        ensures taken { IfOk result (λ _. came self.new ≡ and_next (reply_value reply.now) (came self.old)) }
        ensures number { self.new.number ≡ self.old.number }
    {
        self.text.extend_from_slice(reply.text)?;
        self.next = self.next.saturating_add(1);
        self.is_whole = reply.is_last;
        Ok(())
    }

    /// Begins once more with a first reply.
    fn begin(&mut self, reply: &Reply<'_>) -> Result<(), AllocError>
        ensures taken { IfOk result (λ _. came self.new ≡ begun (reply_value reply.now)) }
        ensures number { self.new.number ≡ self.old.number }
    {
        self.text.clear();
        self.text.extend_from_slice(reply.text)?;
        self.next = 1;
        self.is_whole = reply.is_last;
        Ok(())
    }
}
