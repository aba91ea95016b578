//! An object that is being written.

ghost use Rattle.std.specs.Prelude.{◌≡◌, ◌↔◌, ◌++◌, ◌∷◌, [], List, ℕ, IfOk, IsOk};
ghost use Rattle.std.specs.Fmt.{signed_decimal};
ghost use Rattle.json.specs.Token as token;
ghost use Rattle.json.specs.Json as json;
ghost use Rattle.ecat_json.specs.Members.{number_or_null, of_kind, with, with_number, with_text};
ghost use Rattle.ecat_json.specs.Names.{name_or_null};
ghost use Rattle.ecat_json.specs.Lines.{IsLine};

use crate::list::List as Items;
use arrayvec::ArrayString;
use json::Writer;
use std::alloc::AllocError;
use std::fmt::{Display, Write as _};
use std::io;
use std::marker::Model;

/// How many bytes a text has at most that is made for a member.
const SHOWN: usize = 256;

/// An object of JSON that is being written into a room, from its kind on: its tokens so far. Members are
/// added at its end; one that finds no memory takes the object with it.
#[derive(Drop)]
pub struct Object {
    pub(crate) writer: Writer,
}

impl Model for Object {
    ghost use Rattle.std.specs.Prelude.{◌≡◌, List, []};
    ghost use Rattle.json.specs.Token.{Token, tokens_code};
    ghost use Rattle.ecat_json.specs.Lines.{IsOpen};

    ghost Value = { List Token };

    ghost coded = { tokens_code };

    ghost view = { λ o. o.writer.tokens };

    ghost invariant = { λ o. IsOpen o.writer.tokens × (o.writer.before ≡ []) };
}

/// What was written, or that there was no memory for it.
pub(crate) fn made(step: Result<(), AllocError>) -> io::Result<()>
    ensures { IsOk result ↔ IsOk step }
{
    match step {
        Ok(()) => Ok(()),
        Err(_) => Err(no_memory()),
    }
}

/// That there was no memory for a line.
pub(crate) fn no_memory() -> io::Error {
    io::Error::from(io::ErrorKind::OutOfMemory)
}

impl Object {
    /// An object whose first member says its kind, in a room whose bytes are let go. Memory is taken where
    /// the line becomes longer than what the room has.
    pub fn begin(room: Vec<u8>, kind: &str) -> io::Result<Object>
        ensures { IfOk result (λ o. o ≡ of_kind kind.now) }
    {
        let mut room = room;
        room.clear();
        let mut writer = Writer::new(room);
        made(writer.begin_object())?;
        made(writer.key("kind"))?;
        made(writer.string(kind))?;
        Ok(Object { writer })
    }

    /// Adds a text.
    pub fn text(self, name: &str, value: &str) -> io::Result<Object>
        ensures { IfOk result (λ o. o ≡ with_text self name.now value.now) }
    {
        let Object { mut writer } = self;
        made(writer.key(name))?;
        made(writer.string(value))?;
        Ok(Object { writer })
    }

    /// Adds a name, or null where it is empty.
    pub fn named(self, member: &str, name: &str) -> io::Result<Object>
        ensures { IfOk result (λ o. o ≡ with self member.now (name_or_null name.now)) }
    {
        if name.is_empty() {
            self.nothing(member)
        } else {
            self.text(member, name)
        }
    }

    /// Adds a number.
    pub fn number(self, name: &str, value: u64) -> io::Result<Object>
        ensures { IfOk result (λ o. o ≡ with_number self name.now value) }
    {
        let Object { mut writer } = self;
        made(writer.key(name))?;
        made(writer.u64(value))?;
        Ok(Object { writer })
    }

    /// Adds a number, or null where there is none.
    pub fn number_if(self, name: &str, value: Option<u64>) -> io::Result<Object>
        ensures { IfOk result (λ o. o ≡ with self name.now (number_or_null value)) }
    {
        match value {
            Some(value) => self.number(name, value),
            None => self.nothing(name),
        }
    }

    /// Adds a text that is made for it, of at most 256 bytes.
    pub fn shown(self, name: &str, value: impl Display + Drop) -> io::Result<Object>
        ensures { IfOk result (λ o. (text : List ℕ) × (o ≡ with_text self name.now text)) }
    {
        let mut text = ArrayString::<SHOWN>::new();
        if write!(text, "{value}").is_err() {
            return Err(io::Error::from(io::ErrorKind::InvalidInput));
        }
        self.text(name, text.as_str())
    }

    /// Adds a number that may be below zero.
    pub fn signed(self, name: &str, value: i64) -> io::Result<Object>
        ensures { IfOk result (λ o. o ≡ with self name.now (json.number (signed_decimal value))) }
    {
        let Object { mut writer } = self;
        made(writer.key(name))?;
        made(writer.i64(value))?;
        Ok(Object { writer })
    }

    /// Adds whether something is so.
    pub fn truth(self, name: &str, value: bool) -> io::Result<Object>
        ensures { IfOk result (λ o. o ≡ with self name.now (json.boolean value)) }
    {
        let Object { mut writer } = self;
        made(writer.key(name))?;
        made(writer.boolean(value))?;
        Ok(Object { writer })
    }

    /// Adds that there is nothing of this name.
    pub fn nothing(self, name: &str) -> io::Result<Object>
        ensures { IfOk result (λ o. o ≡ with self name.now json.null) }
    {
        let Object { mut writer } = self;
        made(writer.key(name))?;
        made(writer.null())?;
        Ok(Object { writer })
    }

    /// Adds a list, which is empty at first.
    pub fn list(self, name: &str) -> io::Result<Items>
        ensures { IfOk result (λ l. l ≡ self ++ token.key name.now ∷ token.begin_array ∷ []) }
    {
        let Object { mut writer } = self;
        made(writer.key(name))?;
        made(writer.begin_array())?;
        Ok(Items { writer })
    }

    /// Ends the object and its line: the bytes of the line are those of the room.
    pub fn end(self) -> io::Result<Vec<u8>>
        ensures { IfOk result (λ line. IsLine line.items self) }
    {
        let Object { mut writer } = self;
        made(writer.end_object())?;
        let mut line = writer.into_inner();
        match line.push(b'\n') {
            Ok(()) => Ok(line),
            Err(_) => Err(no_memory()),
        }
    }
}
