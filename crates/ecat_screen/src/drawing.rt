//! Letters of slaves, marks of links, and bars.

ghost use Rattle.std.specs.Prelude.{◌≡◌, ◌<◌};
ghost use Rattle.ecat_screen.specs.Drawn.{letter, mark, state_letter};

use ec_regs::AlState;
use ec_run::Seen;

/// The letter of a state (IEC 61158-6-12, AL state machine).
fn state_letter(state: AlState) -> u8
    ensures { result ≡ state_letter state }
{
    match state {
        AlState::Init => b'I',
        AlState::PreOp => b'P',
        AlState::SafeOp => b'S',
        AlState::Op => b'O',
    }
}

/// A slave by what was last seen of it: the letter of its state (I, P, S or O), `E` where an error stands,
/// `.` where it does not answer, `?` where nothing is known.
pub fn letter_of(seen: Option<Seen>) -> u8
    ensures { result ≡ letter seen }
{
    match seen {
        Some(Seen::In(state)) => state_letter(state),
        Some(Seen::Error(_, _)) => b'E',
        Some(Seen::Nobody) => b'.',
        Some(Seen::Several) | Some(Seen::Unheard) | None => b'?',
    }
}

/// A link: `-` where it is up, `x` where it is down, `?` where that is not known.
pub fn mark_of(is_up: Option<bool>) -> u8
    ensures { result ≡ mark is_up }
{
    match is_up {
        Some(true) => b'-',
        Some(false) => b'x',
        None => b'?',
    }
}

/// How long a bar is of so many, in columns, where that of the most is so wide. Of nothing it has none, and
/// of something one at the least.
pub fn bar_of(count: u64, most: u64, width: u64) -> u64
    requires some { 0 < most }
{
    let columns = (u128::from(count) * u128::from(width)).div_ceil(u128::from(most));
    u64::try_from(columns).unwrap_or(u64::MAX).min(width)
}
