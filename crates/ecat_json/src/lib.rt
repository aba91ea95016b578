#![tactic(auto)]
//! Lines of JSON: one object a line, for programs that read what a command tells.
//!
//! - [`Object`]: an object that is being written, member after member.
//! - [`List`]: a list of such an object, item after item.
//! - [`JsonLines`]: a writer of objects, each in one write.
//!
//! One use, as in the test `an_object_has_its_members_in_their_order`; `out` is a writer:
//!
//! ```text
//! let mut lines = JsonLines::new(&mut out);
//! let object = lines.object("slave")?.number("station", 4097)?.text("state", "Op")?;
//! lines.put(object)?;
//! ```
//!
//! ```text
//! {"kind":"slave","station":4097,"state":"Op"}
//! ```
//!
//! What is promised: a line that ends is one object, with the members that were named, in their order, and
//! the kit's `serde_json` reads it as these (`Object::end`, by `IsLine` of `specs/Lines.antt`). Each member
//! is added whole or there is no object any more, so that no line is half of one. The text is made by the
//! kit's `json`, on which its `serde_json` stands.
//!
//! Memory is taken where a line is longer than the room that it was given, and nowhere else. So whoever has
//! no memory to take, as a running master in its cycles, gives it a room with so many bytes as its longest
//! line has, once: the room goes into each object and comes back with its line.

mod lines;
mod list;
mod object;

pub use lines::JsonLines;
pub use list::List;
pub use object::Object;

#[cfg(test)]
mod tests;
