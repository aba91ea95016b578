//! The exit statuses of the program.

/// All is well.
pub const GOOD: u8 = 0;

/// The content was refused, a cycle is not good, or a cable is not whole.
pub const REFUSED: u8 = 1;

/// The words of the command line are no command.
pub const BAD_ARGUMENTS: u8 = 2;

/// A file, a socket, the output or memory failed.
pub const FAILED: u8 = 3;
