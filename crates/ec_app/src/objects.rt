//! The object dictionary of a slave (IEC 61158-6-12, object dictionary).

ghost use Rattle.std.specs.Prelude.{◌≡◌, ◌++◌, ◌∷◌, [], IsSome, OnOk, OnErr, IfErr, length, map};
ghost use Rattle.ec_app.specs.Objects.{with_value};

use crate::value::{Rights, Value};
use arrayvec::ArrayVec;
use std::marker::Model;

/// The most objects of a dictionary.
pub const MAX_OBJECTS: usize = 32;

/// One object: a value at an index and subindex (IEC 61158-6-12, object dictionary).
#[derive(Clone, Copy, Debug, PartialEq, Eq)]
pub struct Entry {
    /// The index.
    pub index: u16,
    /// The subindex.
    pub sub: u8,
    /// What the master may do with it.
    pub rights: Rights,
    /// What it holds.
    pub value: Value,
}

impl Default for Entry {
    /// What an unused place of a dictionary holds.
    fn default() -> Self {
        Entry {
            index: 0,
            sub: 0,
            rights: Rights::ReadOnly,
            value: Value::One(0),
        }
    }
}

impl Entry {
    ghost use Rattle.ec_app.specs.Objects.{is_at, with_value};

    /// Is the entry that of this index and subindex?
    fn is_at(&self, index: u16, sub: u8) -> bool
        ensures { result ≡ is_at index sub self.now }
    {
        self.index == index && self.sub == sub
    }

    /// The entry with this value if it is that of this index and subindex, or as it is.
    fn with_value(&self, index: u16, sub: u8, value: Value) -> Entry
        ensures { result ≡ with_value index sub value self.now }
    {
        if self.is_at(index, sub) {
            Entry { value, ..*self }
        } else {
            *self
        }
    }
}

/// Why an object can't be added.
#[derive(Clone, Copy, Debug, PartialEq, Eq)]
pub enum ObjectFault {
    /// The dictionary has `MAX_OBJECTS` objects.
    Full,
    /// An object of this index and subindex is there already.
    Twin,
}

/// Gives the entry of this index and subindex another value.
fn replace_value(entries: &mut [Entry], index: u16, sub: u8, value: Value)
    ensures { entries.new ≡ map (with_value index sub value) entries.old }
{
    for entry in entries.iter_mut() {
        *entry = entry.with_value(index, sub, value);
    }
}

/// The objects of a slave, at most `MAX_OBJECTS`, no two of one index and subindex. Contracts see the list
/// of its entries in the order in which they were added.
#[derive(Drop)]
pub struct Objects {
    entries: ArrayVec<Entry, MAX_OBJECTS>,
}

impl Model for Objects {
    ghost use Rattle.std.specs.Prelude.{List};
    ghost use Rattle.ec_app.specs.declared.objects.Entry.{Entry};

    ghost Value = { List Entry };

    ghost use Rattle.ec_app.specs.Objects.{IsDictionary};

    ghost view = { λ o. o.entries.items };

    ghost invariant = { λ o. IsDictionary o.entries.items };
}

impl Objects {
    ghost use Rattle.ec_app.specs.Objects.{IsDictionary, has_index, stands_at, object_at, add_fault};

    /// A dictionary with no objects.
    pub fn new() -> Objects
        ensures { result ≡ [] }
    {
        Objects {
            entries: ArrayVec::new(),
        }
    }

    /// The number of objects, at most `MAX_OBJECTS`. (Its clause `dictionary` is what a proof knows of
    /// every dictionary.)
    pub fn count(&self) -> usize
        ensures count { result ≡ length self.now }
        ensures dictionary { IsDictionary self.now }
    {
        self.entries.len()
    }

    /// The rights and the value of the object of this index and subindex, or `None` where there is none.
    pub fn get(&self, index: u16, sub: u8) -> Option<(Rights, Value)>
        ensures { result ≡ object_at index sub self.now }
    {
        self.entries
            .iter()
            .find(|entry| entry.is_at(index, sub))
            .map(|entry| (entry.rights, entry.value))
    }

    /// Is there an object of this index, whatever its subindex?
    pub fn has_index(&self, index: u16) -> bool
        ensures { result ≡ has_index index self.now }
    {
        self.entries.iter().any(|entry| entry.index == index)
    }

    /// Is there an object of this index and subindex?
    fn stands_at(&self, index: u16, sub: u8) -> bool
        ensures { result ≡ stands_at index sub self.now }
    {
        self.entries.iter().any(|entry| entry.is_at(index, sub))
    }

    /// Adds an object: `Full` where there are `MAX_OBJECTS` already, and otherwise `Twin` where there is one
    /// of this index and subindex; both leave the dictionary as it was.
    pub fn add(
        &mut self,
        index: u16,
        sub: u8,
        rights: Rights,
        value: Value,
    ) -> Result<(), ObjectFault>
        ensures added { OnOk result
            (self.new
            ≡ self.old ++ record { index = index; sub = sub; rights = rights; value = value } ∷ []) }
        ensures unchanged { OnErr result (self.new ≡ self.old) }
        ensures good { OnOk result (add_fault index sub self.old ≡ None) }
        ensures fault { IfErr result (λ fault. add_fault index sub self.old ≡ Some fault) }
    {
        if self.entries.is_full() {
            return Err(ObjectFault::Full);
        }
        if self.stands_at(index, sub) {
            return Err(ObjectFault::Twin);
        }
        self.entries.push(Entry {
            index,
            sub,
            rights,
            value,
        });
        Ok(())
    }

    /// Gives the object of this index and subindex another value; all else stays.
    pub fn set(&mut self, index: u16, sub: u8, value: Value)
        requires { IsSome (object_at index sub self.old) }
        ensures { self.new ≡ map (with_value index sub value) self.old }
    {
        replace_value(self.entries.as_mut_slice(), index, sub, value);
    }
}
