//! What one copy says of the links.

/// What one copy says of the links of a line, which are numbered from 0 to the number of slaves.
#[derive(Clone, Copy, PartialEq, Eq, Debug)]
pub enum Told {
    /// All links are up.
    Whole,
    /// This link is down, and all before it are up.
    First(usize),
    /// This link is down, and all behind it are up.
    Last(usize),
    /// No line of so many slaves gives such a copy, whatever its links.
    Never,
}
