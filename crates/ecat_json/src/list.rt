//! A list of an object that is being written.

ghost use Rattle.std.specs.Prelude.{◌≡◌, ◌++◌, ◌∷◌, [], IfOk, decimal};
ghost use Rattle.std.specs.Fmt.{signed_decimal};
ghost use Rattle.json.specs.Token as token;
ghost use Rattle.ecat_json.specs.Members.{signed_or_null};
ghost use Rattle.ecat_json.specs.Names.{name_item};

use crate::object::{Object, made};
use json::Writer;
use std::io;
use std::marker::Model;

/// A list of an object that is being written, with the object: its tokens so far.
#[derive(Drop)]
pub struct List {
    pub(crate) writer: Writer,
}

impl Model for List {
    ghost use Rattle.std.specs.Prelude as prelude;
    ghost use Rattle.std.specs.Prelude.{◌≡◌, []};
    ghost use Rattle.json.specs.Token.{Token, tokens_code};
    ghost use Rattle.ecat_json.specs.Lines.{IsOpenList};

    ghost Value = { prelude.List Token };

    ghost coded = { tokens_code };

    ghost view = { λ l. l.writer.tokens };

    ghost invariant = { λ l. IsOpenList l.writer.tokens × (l.writer.before ≡ []) };
}

impl List {
    /// Adds a number to the list.
    pub fn number(self, value: u64) -> io::Result<List>
        ensures { IfOk result (λ l. l ≡ self ++ token.number (decimal value) ∷ []) }
    {
        let List { mut writer } = self;
        made(writer.u64(value))?;
        Ok(List { writer })
    }

    /// Adds a number that may be below zero to the list.
    pub fn signed(self, value: i64) -> io::Result<List>
        ensures { IfOk result (λ l. l ≡ self ++ token.number (signed_decimal value) ∷ []) }
    {
        let List { mut writer } = self;
        made(writer.i64(value))?;
        Ok(List { writer })
    }

    /// Adds null to the list.
    pub fn nothing(self) -> io::Result<List>
        ensures { IfOk result (λ l. l ≡ self ++ token.null ∷ []) }
    {
        let List { mut writer } = self;
        made(writer.null())?;
        Ok(List { writer })
    }

    /// Adds a number that may be below zero, or null where there is none, to the list.
    pub fn signed_if(self, value: Option<i64>) -> io::Result<List>
        ensures { IfOk result (λ l. l ≡ self ++ signed_or_null value ∷ []) }
    {
        match value {
            Some(number) => self.signed(number),
            None => self.nothing(),
        }
    }

    /// Adds a text to the list.
    pub fn text(self, value: &str) -> io::Result<List>
        ensures { IfOk result (λ l. l ≡ self ++ token.string value.now ∷ []) }
    {
        let List { mut writer } = self;
        made(writer.string(value))?;
        Ok(List { writer })
    }

    /// Adds a name, or null where it is empty, to the list.
    pub fn named(self, name: &str) -> io::Result<List>
        ensures { IfOk result (λ l. l ≡ self ++ name_item name.now ∷ []) }
    {
        if name.is_empty() {
            self.nothing()
        } else {
            self.text(name)
        }
    }

    /// Ends the list: the object goes on.
    pub fn end(self) -> io::Result<Object>
        ensures { IfOk result (λ o. o ≡ self ++ token.end_array ∷ []) }
    {
        let List { mut writer } = self;
        made(writer.end_array())?;
        Ok(Object { writer })
    }
}
