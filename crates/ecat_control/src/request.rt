//! What a line asks for.

use crate::change::{Change, MOST_PLACES, Place};
use crate::refusal::{Fault, Refusal};
use crate::value::{put_value, signal_named, wanted_of};
use crate::words::{Words, byte, is_text, number, put_row, short, value_of, words_of};
use ec_acyclic::Service;
use ec_regs::AlState;
use ecat_master::Asked;
use ecat_signals::Signal;

/// Bytes of an item.
#[derive(Clone, Copy, PartialEq, Eq, Debug)]
pub struct Part {
    /// The number of an item of the scene, the first one's being 0.
    pub item: usize,
    /// Behind how many of its bytes they stand, and how many they are; all of them where this is not said.
    pub run: Option<(usize, usize)>,
}

/// What a line asks for. Whether the master has such an item is not known to it.
#[derive(Clone, Copy, PartialEq, Eq, Debug)]
pub enum Request {
    /// Nothing: an empty line, or one that begins with `#`.
    Nothing,
    /// `set ITEM OFFSET BYTES` or `set NAME VALUE`, and more places behind a `;` each: the change that was
    /// read beside it.
    Set,
    /// `get ITEM` or `get ITEM OFFSET LENGTH`
    Get(Part),
    /// `get NAME`: the signal at this place among those of the scene.
    GetSignal(usize),
    /// `signals`
    Signals,
    /// `slaves`
    Slaves,
    /// `cable`
    Cable,
    /// `counts`
    Counts,
    /// `times`
    Times,
    /// `sdo STATION INDEX SUB [VALUE]`, `state STATION STATE` or `acknowledge STATION`
    Ask(Asked),
    /// `leave STATE`
    Leave(AlState),
    /// `quit`
    Quit,
}

/// The form of `set`.
pub(crate) const SET: &str = "set ITEM OFFSET BYTES; ..";

/// The form of `get`.
pub(crate) const GET: &str = "get ITEM [OFFSET LENGTH]";

/// The form of `sdo`.
const SDO: &str = "sdo STATION INDEX SUB [VALUE]";

/// The form of `state`.
const STATE: &str = "state STATION init|pre-op|safe-op|op";

/// What is wanted where no signal has a name.
const NAMED: &str = "the name of a signal, as `signals` tells them";

/// The words of all lines of a scene that has signals.
const ALL_OF_SIGNALS: &str =
    "set, get, signals, slaves, cable, counts, times, sdo, state, acknowledge, leave or quit";

/// The words of all lines.
const ALL: &str = "set, get, slaves, cable, counts, times, sdo, state, acknowledge, leave or quit";

impl Request {
    /// What a line asks for of a scene with these signals, or its first fault in the order of [`Fault`]. Any
    /// bytes are taken. The places of a `set` come into the change, whatever it had.
    pub fn read(line: &[u8], signals: &[Signal], change: &mut Change) -> Result<Request, Refusal> {
        if !is_text(line) {
            return Err(Refusal {
                fault: Fault::NotText,
                wanted: "ASCII text",
            });
        }
        if line.starts_with(b"#") {
            return Ok(Request::Nothing);
        }
        let words = words_of(line);
        let Some(first) = words.first() else {
            return Ok(Request::Nothing);
        };
        match *first {
            b"set" => read_set(line, signals, change),
            b"get" => read_get(&words, signals),
            b"signals" => wanting("signals", alone(&words, Request::Signals)),
            b"slaves" => wanting("slaves", alone(&words, Request::Slaves)),
            b"cable" => wanting("cable", alone(&words, Request::Cable)),
            b"counts" => wanting("counts", alone(&words, Request::Counts)),
            b"times" => wanting("times", alone(&words, Request::Times)),
            b"sdo" => wanting(SDO, read_sdo(&words)),
            b"state" => wanting(STATE, read_state(&words)),
            b"acknowledge" => wanting("acknowledge STATION", read_acknowledge(&words)),
            b"leave" => wanting("leave init|pre-op|safe-op|op", read_leave(&words)),
            b"quit" => wanting("quit", alone(&words, Request::Quit)),
            _ => wanting(all_of(signals), Err(Fault::UnknownWord)),
        }
    }
}

/// The words of all lines of a scene with these signals.
fn all_of(signals: &[Signal]) -> &'static str {
    if signals.is_empty() {
        ALL
    } else {
        ALL_OF_SIGNALS
    }
}

/// What the reading of a line, or of a part of it, comes to that was to be of this form.
fn wanting<T>(wanted: &'static str, read: Result<T, Fault>) -> Result<T, Refusal> {
    match read {
        Ok(read) => Ok(read),
        Err(fault) => Err(Refusal { fault, wanted }),
    }
}

/// A request that is one word alone.
fn alone(words: &Words<'_>, request: Request) -> Result<Request, Fault> {
    if words.len() == 1 {
        Ok(request)
    } else {
        Err(Fault::WrongCount)
    }
}

/// `set`, and places with a `;` between any two of them: the word stands before the first one.
fn read_set(line: &[u8], signals: &[Signal], change: &mut Change) -> Result<Request, Refusal> {
    change.clear();
    let mut is_first = true;
    for piece in line.split(|byte| *byte == b';') {
        let words = words_of(piece);
        let skipped = usize::from(is_first);
        match words.get(skipped..).unwrap_or(&[]) {
            [name, value] if is_name(name, signals) => read_signal(name, value, signals, change)?,
            words => wanting(SET, read_place(words, change))?,
        }
        is_first = false;
    }
    Ok(Request::Set)
}

/// Is a word the name of a signal, or of none? It is no number then; a scene without signals has no names.
fn is_name(word: &[u8], signals: &[Signal]) -> bool {
    !signals.is_empty() && number(word).is_err()
}

/// `NAME VALUE`: puts the bits of a signal behind the places of a change.
fn read_signal(
    name: &[u8],
    value: &[u8],
    signals: &[Signal],
    change: &mut Change,
) -> Result<(), Refusal> {
    let Some(signal) = signal_named(signals, name).and_then(|place| signals.get(place)) else {
        return wanting(NAMED, Err(Fault::NoSignal));
    };
    let field = signal.field;
    wanting(wanted_of(field.kind), put_value(field, value, change))
}

/// `ITEM OFFSET BYTES`: puts a place behind those of a change.
fn read_place(words: &[&[u8]], change: &mut Change) -> Result<(), Fault> {
    let [item, offset, row] = words else {
        return Err(Fault::WrongCount);
    };
    let item = number(item)?;
    let offset = number(offset)?;
    let from = change.bytes.len();
    let count = put_row(row, &mut change.bytes)?;
    let place = Place {
        item,
        offset,
        from,
        count,
        run: None,
    };
    if change.places.try_push(place).is_err() {
        return Err(Fault::TooMany);
    }
    Ok(())
}

/// `get NAME`, `get ITEM` or `get ITEM OFFSET LENGTH`
fn read_get(words: &Words<'_>, signals: &[Signal]) -> Result<Request, Refusal> {
    match words.as_slice() {
        [_, name] if is_name(name, signals) => match signal_named(signals, name) {
            Some(place) => Ok(Request::GetSignal(place)),
            None => wanting(NAMED, Err(Fault::NoSignal)),
        },
        words => wanting(GET, read_part(words)),
    }
}

/// `get ITEM` or `get ITEM OFFSET LENGTH`
fn read_part(words: &[&[u8]]) -> Result<Request, Fault> {
    match words {
        [_, item] => Ok(Request::Get(Part {
            item: number(item)?,
            run: None,
        })),
        [_, item, offset, length] => Ok(Request::Get(Part {
            item: number(item)?,
            run: Some((number(offset)?, number(length)?)),
        })),
        _ => Err(Fault::WrongCount),
    }
}

/// `sdo STATION INDEX SUB` or `sdo STATION INDEX SUB VALUE`
fn read_sdo(words: &Words<'_>) -> Result<Request, Fault> {
    match words.as_slice() {
        [_, station, index, sub] => {
            let (station, index, sub) = (short(station)?, short(index)?, byte(sub)?);
            asking(station, Service::Read { index, sub })
        }
        [_, station, index, sub, value] => {
            let (station, index, sub) = (short(station)?, short(index)?, byte(sub)?);
            let value = value_of(value)?;
            asking(station, Service::Write { index, sub, value })
        }
        _ => Err(Fault::WrongCount),
    }
}

/// `state STATION STATE`
fn read_state(words: &Words<'_>) -> Result<Request, Fault> {
    let [_, station, name] = words.as_slice() else {
        return Err(Fault::WrongCount);
    };
    let station = short(station)?;
    asking(station, Service::State(state_named(name)?))
}

/// `acknowledge STATION`
fn read_acknowledge(words: &Words<'_>) -> Result<Request, Fault> {
    let [_, station] = words.as_slice() else {
        return Err(Fault::WrongCount);
    };
    asking(short(station)?, Service::Acknowledge)
}

/// A request that asks this of the slave with a station address.
fn asking(station: u16, service: Service) -> Result<Request, Fault> {
    Ok(Request::Ask(Asked { station, service }))
}

/// `leave STATE`
fn read_leave(words: &Words<'_>) -> Result<Request, Fault> {
    let [_, name] = words.as_slice() else {
        return Err(Fault::WrongCount);
    };
    Ok(Request::Leave(state_named(name)?))
}

/// The state that has this name.
fn state_named(name: &[u8]) -> Result<AlState, Fault> {
    match name {
        b"init" => Ok(AlState::Init),
        b"pre-op" => Ok(AlState::PreOp),
        b"safe-op" => Ok(AlState::SafeOp),
        b"op" => Ok(AlState::Op),
        _ => Err(Fault::BadNumber),
    }
}
