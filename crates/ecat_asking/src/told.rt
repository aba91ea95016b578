//! What an answer says.

/// What an answer says, whose last line is `ok`, or begins with `failed: ` or `refused: `.
#[derive(Clone, Copy, PartialEq, Eq, Debug)]
pub enum Told<'a> {
    /// It is done, and this is what was asked for: no line, or some, each with its end.
    Done(&'a [u8]),
    /// It was tried, and this came of it.
    Failed(&'a [u8]),
    /// It is refused: what is wrong, and what was wanted.
    Refused(&'a [u8]),
    /// It says none of these.
    Nothing,
}

impl<'a> Told<'a> {
    /// What the text of an answer says.
    pub fn of(text: &'a [u8]) -> Told<'a> {
        if let Some(row) = text.strip_prefix(b"failed: ") {
            return Told::Failed(row.strip_suffix(b"\n").unwrap_or(row));
        }
        if let Some(row) = text.strip_prefix(b"refused: ") {
            return Told::Refused(row.strip_suffix(b"\n").unwrap_or(row));
        }
        match text.strip_suffix(b"ok\n") {
            Some(rows) if rows.is_empty() || rows.ends_with(b"\n") => Told::Done(rows),
            _ => Told::Nothing,
        }
    }
}
