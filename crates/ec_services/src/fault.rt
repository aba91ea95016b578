//! Why a service has no result.

/// Why a service has no result.
#[derive(Clone, Copy, PartialEq, Eq, Debug)]
pub enum MasterFault {
    /// A write came back with the working counter 0 (a slave may have taken it all the same, where the copies
    /// that passed it were lost), or no slave answered a read of AL status, or there is none on the line.
    NoSlave,
    /// The slave refused the state, with this AL status code (IEC 61158-6-12, AL status code).
    Refused(u16),
    /// The slave ended the transfer with this abort code (IEC 61158-6-12, SDO abort codes).
    Abort(u32),
    /// As many reads as were allowed brought no answer.
    NoAnswer,
    /// The answer is none to what was asked, or more than one slave answered.
    BadAnswer,
    /// The cable is broken, so that the places of slaves cannot be told.
    Broken,
    /// A frame could not be sent, or its copies could not be received.
    Port,
    /// A copy came back that is none of the frame that was sent.
    Stranger,
}
