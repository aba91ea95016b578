//! Who asks a running master, and which answers are kept for who asks once more.

ghost use Rattle.std.specs.Prelude.{◌≡◌, ◌≢◌};
ghost use Rattle.ecat_task.specs.Desk.{taking_of};
ghost use Rattle.ecat_task.specs.declared.desk.Taking.TheVariants.{New};

use ec_io::{MAX_TEXT, Question, REPLY_HEAD, Reply};
use std::alloc::{AllocError, Global};
use std::net::SocketAddr;

/// How many askers' last answers are kept.
pub const MOST_ASKERS: usize = 32;

/// How many replies go out behind a cycle at the most.
pub const MOST_REPLIES: usize = 8;

/// The answer to a question that comes while another one is under way.
const BUSY: &[u8] = b"refused: Busy, wanted one question at a time\n";

/// A task at whose socket a running master is asked: one question is under way at a time.
pub trait Questioned {
    /// Takes the line of the question that waits, into the front of the room, and says how long it is. From
    /// then on it is under way, up to its last reply.
    fn question(&mut self, into: &mut [u8; MAX_TEXT]) -> Option<usize>;

    /// Sends who asked the next replies of an answer of this text, as many as go out behind a cycle, and says
    /// whether the last one was among them: then another question may come.
    fn reply(&mut self, text: &[u8]) -> bool;
}

/// What a question is.
#[derive(Clone, Copy, PartialEq, Eq, Debug)]
pub enum Taking {
    /// One that was not asked before: it waits now.
    New,
    /// The one that is under way, sent once more.
    UnderWay,
    /// The last one of its asker, whose answer is kept.
    Again,
    /// Another one, while one is under way.
    Busy,
}

/// What a question is, by whether it is the one that is under way, whether its answer is kept, and whether
/// one is under way. Only one that is neither under way nor answered is done.
pub fn taking_of(is_under_way: bool, is_kept: bool, is_busy: bool) -> Taking
    ensures { result ≡ taking_of is_under_way is_kept is_busy }
{
    if is_under_way {
        Taking::UnderWay
    } else if is_kept {
        Taking::Again
    } else if is_busy {
        Taking::Busy
    } else {
        Taking::New
    }
}

/// Who asked, and by which number.
#[derive(Clone, Copy, PartialEq, Eq)]
struct Asker {
    from: SocketAddr,
    number: u64,
}

/// An answer that is kept: of whose question, and how many bytes it has.
#[derive(Clone, Copy)]
struct Kept {
    asker: Asker,
    size: usize,
}

/// How far it is with a question.
#[derive(Clone, Copy, PartialEq, Eq)]
enum Stage {
    /// None is under way.
    Free,
    /// It waits for the end of a cycle.
    Waits,
    /// It is being done, or so many of its replies were sent.
    UnderWay(u16),
}

/// The question that is under way, and the last answers of those who asked before.
#[derive(Drop)]
pub(crate) struct Desk {
    /// The line of the question, at the front.
    line: Vec<u8>,
    /// How many bytes that has.
    count: usize,
    /// Who asked it.
    asker: Option<Asker>,
    stage: Stage,
    /// The askers whose last answers are kept, one for each address.
    askers: Vec<Option<Kept>>,
    /// Their answers, as many bytes for each.
    texts: Vec<u8>,
    /// Who makes room for an asker that comes when there are as many as are kept.
    oldest: usize,
    /// Room for a reply.
    packet: Vec<u8>,
}

impl Desk {
    /// Nobody has asked; there is no room for who asks where nobody can.
    pub(crate) fn of(alloc: Global, is_open: bool) -> Result<Desk, AllocError> {
        let (askers, room) = if is_open {
            (MOST_ASKERS, MAX_TEXT)
        } else {
            (0, 0)
        };
        Ok(Desk {
            line: vec![in alloc; 0; room]?,
            count: 0,
            asker: None,
            stage: Stage::Free,
            askers: vec![in alloc; None; askers]?,
            texts: vec![in alloc; 0; askers.saturating_mul(MAX_TEXT)]?,
            oldest: 0,
            packet: vec![in alloc; 0; room.saturating_add(REPLY_HEAD)]?,
        })
    }

    /// Takes a question, and says what it is.
    pub(crate) fn take(&mut self, question: &Question<'_>, from: SocketAddr) -> Taking
        ensures kept { result ≢ New → self.new ≡ self.old }
    {
        let asker = Asker {
            from,
            number: question.number,
        };
        let is_busy = self.stage != Stage::Free;
        let is_under_way = is_busy && self.asker == Some(asker);
        let taking = taking_of(is_under_way, self.place_of(asker).is_some(), is_busy);
        match taking {
            Taking::New => self.begin(question.line, asker),
            Taking::UnderWay | Taking::Again | Taking::Busy => {}
        }
        taking
    }

    /// A question begins to wait.
    fn begin(&mut self, line: &[u8], asker: Asker) {
        let count = line.len().min(self.line.len());
        put(
            self.line.as_mut_slice(),
            0,
            line.get(..count).unwrap_or(&[]),
        );
        self.count = count;
        self.asker = Some(asker);
        self.stage = Stage::Waits;
    }

    /// Takes the line of the question that waits, into the front of the room; it is under way then.
    pub(crate) fn question(&mut self, into: &mut [u8; MAX_TEXT]) -> Option<usize> {
        if self.stage != Stage::Waits {
            return None;
        }
        self.stage = Stage::UnderWay(0);
        put(into, 0, self.line.get(..self.count).unwrap_or(&[]));
        Some(self.count)
    }
}

impl Desk {
    /// Where the answer to a question is kept, if it is.
    fn place_of(&self, asker: Asker) -> Option<usize> {
        self.askers
            .iter()
            .position(|kept| kept.is_some_and(|kept| kept.asker == asker))
    }

    /// Writes the next reply of the answer to the question that is under way, of this text; and says how many
    /// bytes it has, and to whom it goes. Behind the last one the answer is kept, if it is one reply alone,
    /// and another question may come.
    pub(crate) fn write_next(&mut self, text: &[u8]) -> Option<(usize, SocketAddr)> {
        let (Stage::UnderWay(place), Some(asker)) = (self.stage, self.asker) else {
            return None;
        };
        let reply = reply_of(asker.number, place, text);
        if reply.is_last {
            self.keep(asker, text);
            self.stage = Stage::Free;
        } else {
            self.stage = Stage::UnderWay(place.saturating_add(1));
        }
        let size = reply.write(self.packet.as_mut_slice()).ok()?;
        Some((size, asker.from))
    }

    /// Is no question under way?
    pub(crate) fn is_free(&self) -> bool {
        self.stage == Stage::Free
    }

    /// Writes the answer that is kept of a question, and says how many bytes that takes.
    pub(crate) fn write_again(&mut self, number: u64, from: SocketAddr) -> Option<usize> {
        let place = self.place_of(Asker { from, number })?;
        let size = (*self.askers.get(place)?)?.size;
        let text = self.texts.get(place.saturating_mul(MAX_TEXT)..)?;
        let reply = reply_of(number, 0, text.get(..size)?);
        reply.write(self.packet.as_mut_slice()).ok()
    }

    /// Writes that another question is under way, and says how many bytes that takes.
    pub(crate) fn write_busy(&mut self, number: u64) -> Option<usize> {
        reply_of(number, 0, BUSY)
            .write(self.packet.as_mut_slice())
            .ok()
    }

    /// The bytes of a reply that was written, of which there are so many.
    pub(crate) fn packet(&self, size: usize) -> &[u8] {
        self.packet.get(..size).unwrap_or(&[])
    }

    /// Keeps an answer, if it is one reply alone, in the place of the one before to that address, or of the
    /// oldest one.
    fn keep(&mut self, asker: Asker, text: &[u8]) {
        if text.len() > MAX_TEXT {
            return;
        }
        let place = self.place_for(asker.from);
        let at = place.saturating_mul(MAX_TEXT);
        put(self.texts.as_mut_slice(), at, text);
        if let Some(kept) = self.askers.get_mut(place) {
            let size = text.len();
            *kept = Some(Kept { asker, size });
        }
    }

    /// Where the answer to this address is to be kept.
    fn place_for(&mut self, from: SocketAddr) -> usize {
        let known = self
            .askers
            .iter()
            .position(|kept| kept.is_some_and(|kept| kept.asker.from == from));
        if let Some(place) = known {
            return place;
        }
        let place = self.oldest;
        self.oldest = place.saturating_add(1) % MOST_ASKERS;
        place
    }
}

/// Puts bytes to a place of a room, if that has as many there.
fn put(room: &mut [u8], at: usize, bytes: &[u8]) {
    if at <= room.len() && bytes.len() <= room.len() - at {
        room[at..at + bytes.len()].copy_from_slice(bytes);
    }
}

/// The reply at a place of an answer of this text.
fn reply_of(number: u64, place: u16, text: &[u8]) -> Reply<'_> {
    let from = usize::from(place).saturating_mul(MAX_TEXT);
    let rest = text.get(from..).unwrap_or(&[]);
    let count = rest.len().min(MAX_TEXT);
    Reply {
        number,
        place,
        is_last: rest.len() <= MAX_TEXT,
        text: rest.get(..count).unwrap_or(&[]),
    }
}
