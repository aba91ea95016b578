//! Where the ends of a line lie.

ghost use Rattle.std.specs.Prelude.{◌≡◌};

/// Where the two ends of a line lie, each as `HOST:PORT`.
#[derive(Clone, Copy, PartialEq, Eq, Debug)]
pub struct RemoteEnds<'a> {
    /// The end A, before the first slave.
    pub a: &'a str,
    /// The end B, behind the last slave, if the master has a port there.
    pub b: Option<&'a str>,
}

/// The ends that a text names: that of end A, and behind the first comma, if there is one, that of end B.
pub fn ends_of(text: &str) -> RemoteEnds<'_> {
    match text.split_once(',') {
        Some((a, b)) => RemoteEnds { a, b: Some(b) },
        None => RemoteEnds { a: text, b: None },
    }
}
