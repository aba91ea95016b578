//! Objects that go out, each in one write.

ghost use Rattle.std.specs.Prelude.{◌≡◌, IfOk};
ghost use Rattle.ecat_json.specs.Members.{of_kind};

use crate::Object;
use crate::object::no_memory;
use std::io::{self, Write};

/// Writes objects, each on a line of its own and in one write. It keeps the room of the last line.
#[derive(Drop)]
pub struct JsonLines<'a, W> {
    out: &'a mut W,
    room: Option<Vec<u8>>,
}

impl<'a, W: Write> JsonLines<'a, W> {
    /// Lines for this output, with a room for them: it takes memory where a line is longer.
    pub fn new(out: &'a mut W, room: Vec<u8>) -> JsonLines<'a, W> {
        JsonLines {
            out,
            room: Some(room),
        }
    }

    /// Begins an object of this kind. Where one that was begun before was not put, its room is gone.
    pub fn object(&mut self, kind: &str) -> io::Result<Object>
        ensures { IfOk result (λ o. o ≡ of_kind kind.now) }
    {
        match self.room.take() {
            Some(room) => Object::begin(room, kind),
            None => Err(no_memory()),
        }
    }

    /// Ends an object and writes its line.
    pub fn put(&mut self, object: Object) -> io::Result<()> {
        let line = object.end()?;
        self.out.write_all(line.as_slice())?;
        self.room = Some(line);
        Ok(())
    }
}
