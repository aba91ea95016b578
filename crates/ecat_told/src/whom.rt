//! Of which slaves' registers a command tells (IEC 61158-4-12, the command field of a datagram).

ghost use Rattle.std.specs.Prelude.{◌≡◌};
ghost use Rattle.ecat_told.specs.Known.{all_wrote, both_did, did, is_logical, is_write, may_have_done};
ghost use Rattle.ecat_told.specs.Known.{one_wrote, whom};

use crate::byte::How;
use ec_wire::Command;

/// Whom a command means.
#[derive(Clone, Copy, PartialEq, Eq, Debug)]
pub enum Whom {
    /// No slave's registers.
    Nobody,
    /// Those of the slave at a place.
    Place,
    /// Those of the slave with a station address.
    Station,
    /// Those of all slaves, or of all but one.
    Everybody,
}

/// Whom a command means.
pub(crate) fn meant_by(command: Command) -> Whom
    ensures { result ≡ whom command }
{
    match command {
        Command::Aprd | Command::Apwr | Command::Aprw => Whom::Place,
        Command::Fprd | Command::Fpwr | Command::Fprw => Whom::Station,
        Command::Bwr | Command::Brw | Command::Armw | Command::Frmw => Whom::Everybody,
        Command::Nop | Command::Brd | Command::Lrd | Command::Lwr | Command::Lrw => Whom::Nobody,
    }
}

/// Does a command write alone?
pub(crate) fn is_write(command: Command) -> bool
    ensures { result ≡ is_write command }
{
    matches!(command, Command::Apwr | Command::Fpwr | Command::Bwr)
}

/// Is a command logical?
pub(crate) fn is_logical(command: Command) -> bool
    ensures { result ≡ is_logical command }
{
    matches!(command, Command::Lrd | Command::Lwr | Command::Lrw)
}

/// What a write to one slave did of which so many counted; `all` says whether all copies came back.
fn one_wrote(moved: u16, all: bool) -> Option<How>
    ensures { result ≡ one_wrote moved all }
{
    if moved == 1 {
        Some(How::Written)
    } else if moved == 0 && all {
        None
    } else {
        Some(How::Lost)
    }
}

/// What a broadcast write did of which so many of `count` slaves counted.
fn all_wrote(count: usize, moved: u16, all: bool) -> Option<How>
    ensures { result ≡ all_wrote count moved all }
{
    if moved == 0 {
        if all { None } else { Some(How::Lost) }
    } else if usize::from(moved) == count {
        Some(How::Written)
    } else {
        Some(How::MayBeWritten)
    }
}

/// What a command that reads and writes did.
fn both_did(moved: u16, all: bool) -> Option<How>
    ensures { result ≡ both_did moved all }
{
    if moved == 0 && all {
        None
    } else {
        Some(How::Lost)
    }
}

/// What a datagram did that came back, of which so many of `count` slaves counted; `all` says whether all
/// copies of it came back.
pub(crate) fn did(command: Command, count: usize, moved: u16, all: bool) -> Option<How>
    ensures { result ≡ did command count moved all }
{
    match command {
        Command::Aprd | Command::Fprd => { if moved == 1 { Some(How::Read) } else { None } }
        Command::Apwr | Command::Fpwr => one_wrote(moved, all),
        Command::Bwr => all_wrote(count, moved, all),
        Command::Aprw | Command::Fprw | Command::Brw | Command::Armw | Command::Frmw => {
            both_did(moved, all)
        }
        Command::Nop | Command::Brd | Command::Lrd | Command::Lwr | Command::Lrw => None,
    }
}

/// What a datagram did whose trip is lost.
pub(crate) fn may_have_done(command: Command) -> Option<How>
    ensures { result ≡ may_have_done command }
{
    match command {
        Command::Apwr
        | Command::Aprw
        | Command::Fpwr
        | Command::Fprw
        | Command::Bwr
        | Command::Brw
        | Command::Armw
        | Command::Frmw => Some(How::Lost),
        Command::Nop
        | Command::Aprd
        | Command::Fprd
        | Command::Brd
        | Command::Lrd
        | Command::Lwr
        | Command::Lrw => None,
    }
}
