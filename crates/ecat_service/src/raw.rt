//! Where a line at network interfaces lies: the packet sockets that the program was started with.

ghost use Rattle.std.specs.Prelude.{Some};
ghost use Rattle.ecat_service.specs.Raw.{raw_where_words};

use ecat_raw::Descriptors;
use std::fmt;

/// At which descriptors a line is served, as it is printed.
#[derive(Drop)]
pub struct RawWhereText(pub Descriptors);

impl fmt::Display for RawWhereText {
    ghost output = { λ text. Some (raw_where_words text.0) };

    fn fmt<W: fmt::Write>(&self, f: &mut fmt::Formatter<W>) -> fmt::Result {
        let a = self.0.a;
        match self.0.b {
            Some(b) => write!(f, "serving A descriptor {a} B descriptor {b}"),
            None => write!(f, "serving A descriptor {a}"),
        }
    }
}
