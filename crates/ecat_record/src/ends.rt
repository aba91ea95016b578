//! The ends of a line whose copies are recorded as they come and as they leave.

use crate::copies::{Recorder, Way};
use crate::moments::Moments;
use ec_ring::{Port, PortFault};
use ec_wire::PACKET_ROOM;
use ecat_serve::{Arrived, Console, Ends, InputLine, LINE_ROOM, TimedEnds, Waited};
use std::io::Write;
use std::net::SocketAddr;
use std::time::Duration;

/// The ends of a line that is served, of which each packet is recorded as its master has it: what comes to an
/// end has left the master's port there, and what leaves an end arrives at that port. Contracts see the ends.
#[derive(Drop)]
pub struct TapedEnds<'t, 'e, E, W: Write, M: Moments> {
    ends: &'e mut E,
    recorder: &'t mut Recorder<W, M>,
}

impl<'t, 'e, E: Ends, W: Write, M: Moments> TapedEnds<'t, 'e, E, W, M> {
    /// Ends that are recorded.
    pub fn new(ends: &'e mut E, recorder: &'t mut Recorder<W, M>) -> TapedEnds<'t, 'e, E, W, M> {
        TapedEnds { ends, recorder }
    }
}

impl<E: Ends, W: Write, M: Moments> Ends for TapedEnds<'_, '_, E, W, M> {
    ghost receives = { λ old answer room new. E.receives old.ends.now answer room new.ends.now };

    ghost sends = { λ old from to packet answer new.
        E.sends old.ends.now from to packet answer new.ends.now };

    fn receive(&mut self, into: &mut [u8; PACKET_ROOM]) -> Result<Option<Arrived>, PortFault> {
        let found = self.ends.receive(into)?;
        if let Some(arrived) = found {
            self.recorder
                .copy(arrived.at, Way::Leaves, &into[..arrived.count]);
        }
        Ok(found)
    }

    fn send(&mut self, from: Port, to: SocketAddr, bytes: &[u8]) -> Result<(), PortFault> {
        self.recorder.copy(from, Way::Arrives, bytes);
        self.ends.send(from, to, bytes)
    }
}

impl<E: TimedEnds, W: Write, M: Moments> TimedEnds for TapedEnds<'_, '_, E, W, M> {
    fn receive_within(
        &mut self,
        into: &mut [u8; PACKET_ROOM],
        limit: Duration,
    ) -> Result<Waited, PortFault> {
        let waited = self.ends.receive_within(into, limit)?;
        if let Waited::Arrived(arrived) = waited {
            self.recorder
                .copy(arrived.at, Way::Leaves, &into[..arrived.count]);
        }
        Ok(waited)
    }
}

impl<E: Console, W: Write, M: Moments> Console for TapedEnds<'_, '_, E, W, M> {
    fn take_line(&mut self, into: &mut [u8; LINE_ROOM]) -> Option<InputLine> {
        self.ends.take_line(into)
    }
}
