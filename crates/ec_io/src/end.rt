//! How a cycle ended.

ghost use Rattle.std.specs.Prelude.{◌≡◌};
ghost use Rattle.ec_io.specs.End.{end_code, end_item, end_of, has_item};

/// How a cycle ended. Items are numbered from 0.
#[derive(Clone, Copy, PartialEq, Eq, Debug)]
pub enum CycleEnded {
    /// Each working counter was what it has to be.
    Good,
    /// This item is the first whose working counter was not, and it was too low.
    Short(u16),
    /// This item is the first whose working counter was not, and it was too high.
    Over(u16),
    /// A port failed.
    PortFailed,
    /// A copy came that is none of the frame that was sent.
    Stranger,
}

impl CycleEnded {
    /// The number of this end.
    pub(crate) fn code(self) -> u8
        ensures { result ≡ end_code self }
    {
        match self {
            CycleEnded::Good => 0,
            CycleEnded::Short(_) => 1,
            CycleEnded::Over(_) => 2,
            CycleEnded::PortFailed => 3,
            CycleEnded::Stranger => 4,
        }
    }

    /// The item that was short or over, and 0 with the other ends.
    pub(crate) fn item(self) -> u16
        ensures { result ≡ end_item self }
    {
        match self {
            CycleEnded::Short(item) | CycleEnded::Over(item) => item,
            CycleEnded::Good | CycleEnded::PortFailed | CycleEnded::Stranger => 0,
        }
    }

    /// The end of this number, with this item where it has one.
    pub(crate) fn of(code: u8, item: u16) -> CycleEnded
        ensures { result ≡ end_of code item }
    {
        match code {
            0 => CycleEnded::Good,
            1 => CycleEnded::Short(item),
            2 => CycleEnded::Over(item),
            3 => CycleEnded::PortFailed,
            _ => CycleEnded::Stranger,
        }
    }
}

/// Has the end of this number an item?
pub(crate) fn has_item(code: u8) -> bool
    ensures { result ≡ has_item code }
{
    matches!(code, 1 | 2)
}
