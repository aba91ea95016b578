//! What goes out next of a service that is under way.

ghost use Rattle.std.specs.Prelude.{◌≡◌, ◌≤◌};
ghost use Rattle.ec_acyclic.specs.Next.{HasPeer, IsPeerOf, download_by, first_of, upload_by};
ghost use Rattle.ec_acyclic.specs.Question.{IsAcknowledging, IsClearing, IsDownload, IsLook, IsQuestion};
ghost use Rattle.ec_acyclic.specs.Question.{IsReaching, IsRequest, IsUpload, as_state, as_value, as_written};

use crate::service::{Answer, Service};
use ec_app::Value;
use ec_master::Ports;
use ec_regs::AlState;
use ec_services::{
    MasterFault, Peer, Progress, download_on, read_al, read_error, read_status, upload_on,
    write_control,
};

/// What goes out next of a service that is under way.
#[derive(Clone, Copy)]
pub enum Next {
    /// Nothing: the slave has no mailboxes, by which objects are read and written.
    NoMailboxes,
    /// One trip more by which an object is read.
    Upload {
        index: u16,
        sub: u8,
        progress: Progress,
    },
    /// One trip more by which a value is written to an object.
    Download {
        index: u16,
        sub: u8,
        value: Value,
        progress: Progress,
    },
    /// A write of AL control, which asks for this state.
    Request(AlState),
    /// A read of AL status: is the slave in this state, for which it was asked?
    Reached(AlState),
    /// A read of AL status: in which state is the slave?
    InWhich,
    /// A write of AL control, which asks for this state, in which the slave is, and acknowledges its error.
    Acknowledge(AlState),
    /// A read of AL status: is the error gone?
    Cleared,
}

/// What a question told, and what goes out next.
#[derive(Clone, Copy)]
pub(crate) struct Reply {
    /// The answer, `None` where there is none yet, or why there is none.
    pub(crate) told: Result<Option<Answer>, MasterFault>,
    /// What goes out next, where the service goes on.
    pub(crate) next: Next,
}

/// What goes out first where an object is read.
fn first_upload(index: u16, sub: u8, peer: Option<Peer>) -> Next
    ensures { result ≡ upload_by index sub peer }
{
    match peer {
        None => Next::NoMailboxes,
        Some(peer) => Next::Upload {
            index,
            sub,
            progress: Progress::begun(&peer),
        },
    }
}

/// What goes out first where a value is written to an object.
fn first_download(index: u16, sub: u8, value: Value, peer: Option<Peer>) -> Next
    ensures { result ≡ download_by index sub value peer }
{
    match peer {
        None => Next::NoMailboxes,
        Some(peer) => Next::Download {
            index,
            sub,
            value,
            progress: Progress::begun(&peer),
        },
    }
}

/// The value that was told as an answer.
fn as_value(told: Result<Option<Value>, MasterFault>) -> Result<Option<Answer>, MasterFault>
    ensures { result ≡ as_value told }
{
    match told {
        Ok(Some(value)) => Ok(Some(Answer::Value(value))),
        Ok(None) => Ok(None),
        Err(fault) => Err(fault),
    }
}

/// That a value was stored as an answer.
fn as_written(told: Result<Option<()>, MasterFault>) -> Result<Option<Answer>, MasterFault>
    ensures { result ≡ as_written told }
{
    match told {
        Ok(Some(())) => Ok(Some(Answer::Written)),
        Ok(None) => Ok(None),
        Err(fault) => Err(fault),
    }
}

/// The state that was told as an answer.
fn as_state(told: Result<Option<AlState>, MasterFault>) -> Result<Option<Answer>, MasterFault>
    ensures { result ≡ as_state told }
{
    match told {
        Ok(Some(state)) => Ok(Some(Answer::In(state))),
        Ok(None) => Ok(None),
        Err(fault) => Err(fault),
    }
}

/// Makes one trip more by which an object is read.
fn upload<P: Ports>(ports: &mut P, station: u16, index: u16, sub: u8, progress: Progress) -> Reply
    requires { IsPeerOf station progress.peer }
    ensures asked { IsUpload P.trips ports.old index sub progress result ports.new }
    ensures still_peer { HasPeer station result.next }
    ensures never_lower { P.failed ports.old ≤ P.failed ports.new }
{
    let mut progress = progress;
    let told = upload_on(ports, &mut progress, index, sub);
    Reply {
        told: as_value(told),
        next: Next::Upload {
            index,
            sub,
            progress,
        },
    }
}

/// Makes one trip more by which a value is written to an object.
fn download<P: Ports>(
    ports: &mut P,
    station: u16,
    index: u16,
    sub: u8,
    value: Value,
    progress: Progress,
) -> Reply
    requires { IsPeerOf station progress.peer }
    ensures asked { IsDownload P.trips ports.old index sub value progress result ports.new }
    ensures still_peer { HasPeer station result.next }
    ensures never_lower { P.failed ports.old ≤ P.failed ports.new }
{
    let mut progress = progress;
    let told = download_on(ports, &mut progress, index, sub, value);
    Reply {
        told: as_written(told),
        next: Next::Download {
            index,
            sub,
            value,
            progress,
        },
    }
}

/// Asks for a state; whether the slave comes to it is asked next.
fn request_state<P: Ports>(ports: &mut P, station: u16, state: AlState) -> Reply
    ensures asked { IsRequest P.trips ports.old station state result ports.new }
    ensures never_lower { P.failed ports.old ≤ P.failed ports.new }
{
    match write_control(ports, station, state) {
        Ok(()) => Reply {
            told: Ok(None),
            next: Next::Reached(state),
        },
        Err(fault) => Reply {
            told: Err(fault),
            next: Next::Request(state),
        },
    }
}

/// Asks whether the slave is in the state for which it was asked.
fn ask_reached<P: Ports>(ports: &mut P, station: u16, state: AlState) -> Reply
    ensures asked { IsReaching P.trips ports.old station state result ports.new }
    ensures never_lower { P.failed ports.old ≤ P.failed ports.new }
{
    let told = match read_status(ports, station, state) {
        Ok(Some(())) => Ok(Some(Answer::In(state))),
        Ok(None) => Ok(None),
        Err(fault) => Err(fault),
    };
    Reply {
        told,
        next: Next::Reached(state),
    }
}

/// Asks in which state the slave is; that is acknowledged next.
fn ask_in_which<P: Ports>(ports: &mut P, station: u16) -> Reply
    ensures asked { IsLook P.trips ports.old station result ports.new }
    ensures never_lower { P.failed ports.old ≤ P.failed ports.new }
{
    match read_al(ports, station) {
        Ok(status) => Reply {
            told: Ok(None),
            next: Next::Acknowledge(status.state),
        },
        Err(fault) => Reply {
            told: Err(fault),
            next: Next::InWhich,
        },
    }
}

/// Acknowledges an error in this state; whether it is gone is asked next.
fn acknowledge<P: Ports>(ports: &mut P, station: u16, state: AlState) -> Reply
    ensures asked { IsAcknowledging P.trips ports.old station state result ports.new }
    ensures never_lower { P.failed ports.old ≤ P.failed ports.new }
{
    match write_control(ports, station, state) {
        Ok(()) => Reply {
            told: Ok(None),
            next: Next::Cleared,
        },
        Err(fault) => Reply {
            told: Err(fault),
            next: Next::Acknowledge(state),
        },
    }
}

/// Asks whether the error is gone.
fn ask_cleared<P: Ports>(ports: &mut P, station: u16) -> Reply
    ensures asked { IsClearing P.trips ports.old station result ports.new }
    ensures never_lower { P.failed ports.old ≤ P.failed ports.new }
{
    let told = read_error(ports, station);
    Reply {
        told: as_state(told),
        next: Next::Cleared,
    }
}

impl Next {
    /// What goes out first of a service, of one of objects by mail with this peer.
    pub(crate) fn first_of(service: Service, peer: Option<Peer>) -> Next
        ensures { result ≡ first_of service peer }
    {
        match service {
            Service::Read { index, sub } => first_upload(index, sub, peer),
            Service::Write { index, sub, value } => first_download(index, sub, value, peer),
            Service::State(state) => Next::Request(state),
            Service::Acknowledge => Next::InWhich,
        }
    }

    /// Asks that of the slave with a station address, by one frame.
    pub(crate) fn ask<P: Ports>(self, ports: &mut P, station: u16) -> Reply
        requires { HasPeer station self }
        ensures asked { IsQuestion P.trips ports.old station self result ports.new }
        ensures still_peer { HasPeer station result.next }
        ensures never_lower { P.failed ports.old ≤ P.failed ports.new }
    {
        match self {
            Next::NoMailboxes => Reply {
                told: Err(MasterFault::NoSlave),
                next: self,
            },
            Next::Upload {
                index,
                sub,
                progress,
            } => upload(ports, station, index, sub, progress),
            Next::Download {
                index,
                sub,
                value,
                progress,
            } => download(ports, station, index, sub, value, progress),
            Next::Request(state) => request_state(ports, station, state),
            Next::Reached(state) => ask_reached(ports, station, state),
            Next::InWhich => ask_in_which(ports, station),
            Next::Acknowledge(state) => acknowledge(ports, station, state),
            Next::Cleared => ask_cleared(ports, station),
        }
    }
}
