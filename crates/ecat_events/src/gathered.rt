//! The text of a line that is being gathered.

use crate::counted::Counted;
use arrayvec::ArrayString;
use ecat_json::Object;
use ecat_stamps::date_of;
use std::alloc::{AllocError, Global};
use std::io;

/// How many digits a second of a time has behind the point.
const MILLISECONDS: u8 = 3;

/// How many bytes of a line the text of its object has at the most.
const MOST_TEXT: usize = 4_000;

/// How many bytes an object of a line may have, where each byte of its text wants two.
const ROOM: usize = 2 * MOST_TEXT + 192;

/// Room for the objects of lines, if there are to be any.
pub fn room_if(alloc: Global, json: bool) -> Result<Option<Box<Gathered>>, AllocError> {
    if json {
        Ok(Some(Gathered::new(alloc)?))
    } else {
        Ok(None)
    }
}

/// The line that has not ended, and room for its object.
#[derive(Drop)]
pub struct Gathered {
    text: ArrayString<MOST_TEXT>,
    room: Option<Vec<u8>>,
}

impl Gathered {
    /// Nothing has come.
    pub fn new(alloc: Global) -> Result<Box<Gathered>, AllocError> {
        let gathered = Gathered {
            text: ArrayString::new(),
            room: Some(Vec::with_capacity(alloc, ROOM)?),
        };
        Ok(Box::new(alloc, gathered)?)
    }

    /// Puts a byte of a line behind its text, where it has room: as `?` where it is no printable ASCII.
    pub(crate) fn put(&mut self, byte: u8) {
        let shown = if (b' '..=b'~').contains(&byte) {
            char::from(byte)
        } else {
            '?'
        };
        let _ = self.text.try_push(shown);
    }

    /// The line of the object of this kind that tells the text, the number that it begins with, and a time in
    /// nanoseconds since 1970, if there is one.
    pub(crate) fn line(
        &mut self,
        kind: &str,
        now: Option<u64>,
        counts: Counted,
    ) -> io::Result<Vec<u8>> {
        let Some(room) = self.room.take() else {
            return Err(io::Error::from(io::ErrorKind::OutOfMemory));
        };
        let mut object = Object::begin(room, kind)?;
        if let Some(now) = now {
            object = object.shown("time_utc", date_of(now, MILLISECONDS))?;
        }
        let text = self.text.as_str();
        let object = object.number_if(counts.name(), counts.number_of(text))?;
        object.text("text", text)?.end()
    }

    /// Gives back the room of an object that went out, and begins the next line.
    pub(crate) fn end(&mut self, room: Vec<u8>) {
        self.room = Some(room);
        self.text.clear();
    }
}
