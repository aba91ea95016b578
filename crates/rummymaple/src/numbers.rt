//! The numbers with which a call answers, and those that it takes for a name.

ghost use Rattle.std.specs.Prelude.{◌≡◌};
ghost use Rattle.rummymaple.specs.Numbers.{number_of, fault_code, form_of, copy_number};

use ec_wire::{FaultKind, Form};

/// How a call ended. C sees the number: 0 for the first name, and one more for each that follows.
#[derive(Clone, Copy)]
pub enum Code {
    /// It did what was asked; of a verdict: each counter moved by what is expected.
    Good,
    /// The counter of an item moved by less than is expected.
    Short,
    /// The counter of an item moved by more than is expected.
    Over,
    /// Copy a is a stranger: it cannot have come of the frame that was sent.
    StrangerA,
    /// Copy b is a stranger, and copy a is not.
    StrangerB,
    /// What is to be written does not fit the room for it.
    NoRoom,
    /// The number of a form is none.
    BadForm,
    /// The bytes that are said to be sent are no frame.
    NotSent,
    /// The bytes that are said to be joined are no frame.
    NotJoined,
    /// A datagram of the frame is not the answer of its item.
    OtherItem,
    /// There are more items than have a number of their own.
    TooMany,
    /// There is no item with the number at which the frame is to begin.
    NoItem,
    /// The kind of an item is none.
    BadKind,
    /// An item has no data, or more than 1,486 bytes.
    BadLength,
    /// An item reaches past the addresses of its kind.
    BadRange,
    /// An item's data do not lie in the process image.
    BadPlace,
    /// The bytes end before the frame does.
    FaultShort,
    /// The type in the frame's header is not that of commands.
    FaultBadType,
    /// A reserved bit is set.
    FaultReserved,
    /// The header states no datagrams.
    FaultEmpty,
    /// The header states more than 1,498 bytes of datagrams.
    FaultTooLong,
    /// A command above 14.
    FaultBadCommand,
    /// A datagram's data reach past the end of the frame.
    FaultOverrun,
    /// The last datagram says that more follow.
    FaultMoreAtEnd,
    /// Bytes are left behind the last datagram, or too few for one more.
    FaultLeftOver,
    /// Bytes follow the frame in a UDP packet.
    FaultTrailing,
    /// The cycle is done or ended.
    NotUnderWay,
    /// A read of one slave lies neither in its registers nor in one buffered area that the master reads.
    OutsideRead,
    /// A write of one slave does not lie in one buffered area that the master writes.
    OutsideWrite,
    /// No item asks for a logical bit that is mapped.
    NotAsked,
    /// A frame has no place for a number.
    Full,
    /// A packet bears the number, but is no copy of the frame that went out under it.
    OtherFrame,
    /// A packet is a frame, and bears another number, or none.
    OtherNumber,
    /// The frame that is said to be sent does not begin with a broadcast read.
    NotBroadcast,
    /// The code of a command is none.
    BadCommand,
    /// An item writes a byte of a mapped area of outputs and not its last one.
    LeftBy,
    /// No item writes the last byte of a mapped area of outputs.
    NeverCompleted,
    /// Another frame of what is under way goes out.
    GoesOn,
    /// No slave answered, each of ten times, or there is none of the kind.
    NoSlave,
    /// As many trips as were allowed brought no answer.
    NoAnswer,
    /// The answer is none to what was asked, or more than one slave answered.
    BadAnswer,
    /// The slave refused the state, with an AL status code.
    Refused,
    /// The slave ended the transfer, with a code.
    Aborted,
    /// A copy is a stranger: it cannot have come of the frame that was sent.
    Stranger,
    /// The numbers of a struct are none that the call gave that begins it.
    BadNumbers,
    /// Another number of slaves was counted, each of ten times.
    OtherCount,
}

impl Code {
    /// Its number.
    pub fn number(self) -> u32
        ensures { result ≡ number_of self }
    {
        self as u32
    }
}

/// The code of what is wrong with bytes that are no frame.
pub fn fault_code(kind: FaultKind) -> Code
    ensures { result ≡ fault_code kind }
{
    match kind {
        FaultKind::Short => Code::FaultShort,
        FaultKind::BadType => Code::FaultBadType,
        FaultKind::Reserved => Code::FaultReserved,
        FaultKind::Empty => Code::FaultEmpty,
        FaultKind::TooLong => Code::FaultTooLong,
        FaultKind::BadCommand => Code::FaultBadCommand,
        FaultKind::Overrun => Code::FaultOverrun,
        FaultKind::MoreAtEnd => Code::FaultMoreAtEnd,
        FaultKind::LeftOver => Code::FaultLeftOver,
        FaultKind::Trailing => Code::FaultTrailing,
    }
}

/// The form of a number: 0 is an Ethernet frame's payload, 1 a UDP packet's.
#[tactic(auto, unfolding(crate::specs::Numbers::form_of))]
pub fn form_of(number: u32) -> Option<Form>
    ensures { result ≡ form_of number }
{
    match number {
        0 => Some(Form::Ethernet),
        1 => Some(Form::Udp),
        _ => None,
    }
}

/// What came back of one copy of a frame.
#[derive(Clone, Copy)]
pub enum Copy {
    /// Nothing came.
    Lost,
    /// A frame came.
    Came,
    /// What came is no frame, and counts as lost.
    NoFrame,
}

impl Copy {
    /// Its number: 0, 1 or 2.
    pub fn number(self) -> u32
        ensures { result ≡ copy_number self }
    {
        self as u32
    }
}
