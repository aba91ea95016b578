//! Verbs on what a master does to bring up a line: `ec_services`.

ghost use Rattle.std.specs.Prelude.{◌≤◌};

use crate::answer::Answer;
use crate::frames::datagram_of;
use crate::objects::{put_held, put_value, value_of};
use crate::records::{u8_of, u16_of, u32_of};
use crate::ways::Ways;
use crate::words::{Fault, Words};
use ec_app::{Slave, Value};
use ec_master::Ports;
use ec_services::{
    Area, MasterFault, Peer, acknowledge, ask, assign_stations, download_surely, request_state,
    sdo_download, sdo_upload, settle, upload_surely,
};

/// The slave 0x1001 with mailboxes of 32 bytes at 0x1800 and 0x1880, whose next request has the counter 1.
pub fn first_peer() -> Peer {
    Peer {
        station: 0x1001,
        to: Area {
            start: 0x1800,
            length: 32,
        },
        from: Area {
            start: 0x1880,
            length: 32,
        },
        counter: 1,
    }
}

/// A number from the least to the greatest that is taken here.
fn number_from(words: &mut Words<'_>, least: u64, most: u64) -> u64
    ensures { result ≤ most }
{
    let number = words.number(most);
    if number < least {
        words.refuse(Fault::OutOfRange);
    }
    number
}

/// An area of 16 to 1,486 bytes: START LENGTH.
fn area_of(words: &mut Words<'_>) -> Area {
    Area {
        start: u16_of(words),
        length: number_from(words, 16, 1486) as u16,
    }
}

/// A peer: STATION START LENGTH START LENGTH COUNTER, the mailbox of requests first, and the counter 1 to 7.
pub fn peer_of(words: &mut Words<'_>) -> Peer {
    Peer {
        station: u16_of(words),
        to: area_of(words),
        from: area_of(words),
        counter: number_from(words, 1, 7) as u8,
    }
}

/// Answers why a service has no result.
fn put_fault(answer: &mut Answer, fault: MasterFault) {
    match fault {
        MasterFault::Refused(code) => {
            answer.put("Refused");
            answer.hex(u64::from(code));
        }
        MasterFault::Abort(code) => {
            answer.put("Abort");
            answer.hex(u64::from(code));
        }
        fault => answer.name(fault),
    }
}

/// Answers `ok`, or why a service has no result.
fn put_done(answer: &mut Answer, done: Result<(), MasterFault>) {
    match done {
        Ok(()) => answer.put("ok"),
        Err(fault) => put_fault(answer, fault),
    }
}

/// Answers a value, or why there is none.
fn put_read(answer: &mut Answer, read: Result<Value, MasterFault>) {
    match read {
        Ok(value) => put_value(answer, value),
        Err(fault) => put_fault(answer, fault),
    }
}

/// Verbs that change nothing: `trips`, `failed` and `sent` of the ports; and of the slave at K of the ring
/// `al_of K`, `station_of K` and `held_of K INDEX SUB`.
pub fn tell_of_ways(verb: &str, ways: &Ways, words: &mut Words<'_>, answer: &mut Answer) -> bool {
    match verb {
        "trips" => answer.put(ways.trips()),
        "failed" => answer.put(ways.failures()),
        "sent" => match ways.sent() {
            Some(frame) => answer.bytes(frame.bytes()),
            None => answer.put("none"),
        },
        "al_of" | "station_of" | "held_of" => {
            let k = words.number(255) as usize;
            match ways.ring() {
                Some(ring) => match ring.slaves().get(k) {
                    Some(slave) => tell_of_slave(verb, slave, words, answer),
                    None => words.refuse(Fault::OutOfRange),
                },
                None => words.refuse(Fault::OutOfRange),
            }
        }
        _ => return false,
    }
    true
}

/// Verbs on a slave of the ring.
fn tell_of_slave(verb: &str, slave: &Slave, words: &mut Words<'_>, answer: &mut Answer) {
    match verb {
        "al_of" => {
            let (status, code) = slave.controller().al();
            answer.hex_byte(status.byte());
            answer.hex(u64::from(code));
        }
        "station_of" => answer.hex(u64::from(slave.controller().station())),
        _ => {
            let index = u16_of(words);
            put_held(answer, slave.objects().get(index, u8_of(words)));
        }
    }
}

/// Services without a peer: `request_state STATION STATE LIMIT`, `acknowledge STATION LIMIT` and
/// `assign_stations FIRST`; and `ask DATAGRAM`, its data and its counter as the copies join.
pub fn serve(verb: &str, ways: &mut Ways, words: &mut Words<'_>, answer: &mut Answer) -> bool {
    match verb {
        "request_state" => {
            let station = u16_of(words);
            let state = words.state();
            put_done(answer, request_state(ways, station, state, u32_of(words)));
        }
        "acknowledge" => {
            let station = u16_of(words);
            match acknowledge(ways, station, u32_of(words)) {
                Ok(state) => answer.name(state),
                Err(fault) => put_fault(answer, fault),
            }
        }
        "assign_stations" => {
            let first = words.number(65_000) as u16;
            match assign_stations(ways, first) {
                Ok(count) => answer.put(count),
                Err(fault) => put_fault(answer, fault),
            }
        }
        "ask" => match ask(ways, &datagram_of(words)) {
            Ok(back) => {
                answer.bytes(back.joined.data(0));
                answer.put(back.joined.counter(0));
            }
            Err(fault) => put_fault(answer, fault),
        },
        _ => return false,
    }
    true
}

/// Services with a peer: `upload INDEX SUB LIMIT`, `download INDEX SUB VALUE LIMIT`, `settle LIMIT`,
/// `upload_surely INDEX SUB TRIPS` and `download_surely INDEX SUB VALUE TRIPS`; and `skip`, which moves its
/// counter on.
pub fn serve_peer(
    verb: &str,
    ways: &mut Ways,
    peer: &mut Peer,
    words: &mut Words<'_>,
    answer: &mut Answer,
) -> bool {
    if peer.counter < 1 || 7 < peer.counter {
        return false;
    }
    if peer.to.length < 16 || 1486 < peer.to.length {
        return false;
    }
    if peer.from.length < 16 || 1486 < peer.from.length {
        return false;
    }
    match verb {
        "skip" => peer.skip(),
        "settle" => put_done(answer, settle(ways, peer, u32_of(words))),
        "upload" => {
            let (index, sub) = (u16_of(words), u8_of(words));
            put_read(answer, sdo_upload(ways, peer, index, sub, u32_of(words)));
        }
        "upload_surely" => {
            let (index, sub) = (u16_of(words), u8_of(words));
            put_read(answer, upload_surely(ways, peer, index, sub, u32_of(words)));
        }
        "download" => {
            let (index, sub) = (u16_of(words), u8_of(words));
            let value = value_of(words);
            put_done(
                answer,
                sdo_download(ways, peer, index, sub, value, u32_of(words)),
            );
        }
        "download_surely" => {
            let (index, sub) = (u16_of(words), u8_of(words));
            let value = value_of(words);
            put_done(
                answer,
                download_surely(ways, peer, index, sub, value, u32_of(words)),
            );
        }
        _ => return false,
    }
    true
}
