//! What a master that runs on a line is asked through its door, since a second master there, or a command
//! that sends frames of its own, would break its cycles.

ghost use Rattle.std.specs.Prelude.{◌≡◌, ◌||◌, is_some};

use crate::failure::{Failure, report};
use crate::remote::is_end;
use arrayvec::ArrayString;
use ec_app::{AbortCode, Value};
use ecat_asking::{Row, Told, UdpMaster, Unanswered, ask};
use ecat_scene::{Scene, SceneFault};
use ecat_setup::LineFailure;
use ecat_simulation::Asked;
use ecat_text::{GOOD, REFUSED};
use std::fmt::Write as _;
use std::io::{self, Write};
use std::net::Net;
use std::random::RandomSource;
use std::rt::Clock;

/// What is asked of a running master.
#[derive(Clone, Copy)]
pub enum Sought {
    /// Where the cable is broken.
    Cable,
    /// An object of a slave.
    Object(Asked),
    /// What it knows of the slaves, and the cable.
    Slaves,
}

/// Whether the words say besides how a line somewhere else is reached, or that it is written as a scene.
#[derive(Clone, Copy)]
pub struct Far {
    is_said: bool,
}

impl Far {
    /// What these words say.
    pub fn of(at: Option<&str>, raw: Option<&str>, scene: Option<&str>) -> Far
        ensures { result.is_said ≡ (is_some at.entry || is_some raw.entry || is_some scene.entry) }
    {
        Far {
            is_said: at.is_some() || raw.is_some() || scene.is_some(),
        }
    }
}

/// Asks the master that runs on the line of a scene, unless the scene is none.
#[inline(never)]
pub fn ask_through<R, W, V>(
    rt: &R,
    door: &str,
    far: Far,
    sought: &Sought,
    scene: Result<Scene, SceneFault>,
    out: &mut W,
    err: &mut V,
) -> u8
where
    R: Clock + Net + RandomSource + AllocGlobal,
    W: io::Write,
    V: io::Write,
{
    match scene {
        Ok(_) => ask_for(rt, door, far, sought, out, err),
        Err(fault) => report(&Failure::Line(LineFailure::Scene(fault)), out, err),
    }
}

/// Asks the master whose door is there, prints what it answers, and answers the exit status.
#[inline(never)]
pub fn ask_for<R, W, V>(
    rt: &R,
    door: &str,
    far: Far,
    sought: &Sought,
    out: &mut W,
    err: &mut V,
) -> u8
where
    R: Clock + Net + RandomSource + AllocGlobal,
    W: io::Write,
    V: io::Write,
{
    if far.is_said {
        return report(&Failure::Through, out, err);
    }
    if !is_end(door) {
        return report(&Failure::Door, out, err);
    }
    let mut master = match UdpMaster::at(rt, door) {
        Ok(master) => master,
        Err(error) => {
            let status = report(&Failure::Unanswered, out, err);
            let _ = writeln!(err, "{door}: {error}");
            return status;
        }
    };
    match put_sought(rt, &mut master, sought, out, err) {
        Ok(status) => status,
        Err(failure) => {
            let status = report(&failure, out, err);
            if matches!(failure, Failure::Unanswered) {
                let _ = writeln!(
                    err,
                    "no master answers at {door}: --io HOST:PORT gives one a door"
                );
            }
            status
        }
    }
}

/// Asks a master what is sought, and prints what it answers.
fn put_sought<R, W, V>(
    rt: &R,
    master: &mut UdpMaster<'_, R>,
    sought: &Sought,
    out: &mut W,
    err: &mut V,
) -> Result<u8, Failure>
where
    R: Clock + Net + RandomSource + AllocGlobal,
    W: io::Write,
    V: io::Write,
{
    match sought {
        Sought::Cable => put_cable(answer_of(rt, master, "cable")?.text(), out),
        Sought::Object(asked) => put_object(rt, master, asked, out, err),
        Sought::Slaves => {
            let slaves = answer_of(rt, master, "slaves")?;
            let cable = answer_of(rt, master, "cable")?;
            put_rows(slaves.text(), out)?;
            put_rows(cable.text(), out)
        }
    }
}

/// What a master answers to a line.
fn answer_of<R>(rt: &R, master: &mut UdpMaster<'_, R>, line: &str) -> Result<Row, Failure>
where
    R: Clock + Net + RandomSource + AllocGlobal,
{
    let mut drawn = [0; 8];
    let _ = rt.fill_bytes(&mut drawn);
    let mut row = Row::new(rt.alloc(), u64::from_le_bytes(drawn));
    match ask(master, line.as_bytes(), &mut row) {
        Ok(()) => Ok(row),
        Err(Unanswered::NoMemory) => Err(Failure::Line(LineFailure::NoMemory)),
        Err(Unanswered::LongLine | Unanswered::NoAnswer) => Err(Failure::Unanswered),
    }
}

/// Prints what an answer says, or why the line was not done.
fn put_rows<W: Write>(text: &[u8], out: &mut W) -> Result<u8, Failure> {
    match Told::of(text) {
        Told::Done(rows) => {
            out.write_all(rows)?;
            Ok(GOOD)
        }
        Told::Failed(_) | Told::Refused(_) => {
            out.write_all(text)?;
            Ok(REFUSED)
        }
        Told::Nothing => Err(Failure::Unanswered),
    }
}

/// Prints where the cable is broken, as `where` does.
fn put_cable<W: Write>(text: &[u8], out: &mut W) -> Result<u8, Failure> {
    match Told::of(text) {
        Told::Done(b"ring whole\n") => {
            out.write_all(b"whole\n")?;
            Ok(GOOD)
        }
        Told::Done(rows) => {
            out.write_all(rows)?;
            Ok(REFUSED)
        }
        _ => put_rows(text, out),
    }
}

/// Asks for an object, and prints what came of it, as `sdo` does.
fn put_object<R, W, V>(
    rt: &R,
    master: &mut UdpMaster<'_, R>,
    asked: &Asked,
    out: &mut W,
    err: &mut V,
) -> Result<u8, Failure>
where
    R: Clock + Net + RandomSource + AllocGlobal,
    W: io::Write,
    V: io::Write,
{
    let front = front_of(asked);
    let row = answer_of(rt, master, line_of(asked).as_str())?;
    match Told::of(row.text()) {
        Told::Done(rows) => {
            out.write_all(behind(front.as_str(), rows))?;
            Ok(GOOD)
        }
        Told::Failed(rows) => {
            let rows = behind(front.as_str(), rows);
            out.write_all(rows)?;
            out.write_all(b"\n")?;
            explain(rows, err);
            Ok(REFUSED)
        }
        _ => put_rows(row.text(), out),
    }
}

/// The most characters of a line that asks for an object.
const LINE: usize = 64;

/// What the answer to a line that asks for this object begins with.
fn front_of(asked: &Asked) -> ArrayString<LINE> {
    let (station, index, sub) = (asked.station, asked.index, asked.sub);
    let mut front = ArrayString::new();
    let _ = write!(front, "sdo 0x{station:04x} 0x{index:04x} {sub}");
    front
}

/// The line that asks for this object.
fn line_of(asked: &Asked) -> ArrayString<LINE> {
    let mut line = front_of(asked);
    let _ = match asked.value {
        None => Ok(()),
        Some(Value::One(number)) => write!(line, " 0x{number:02x}"),
        Some(Value::Two(number)) => write!(line, " 0x{number:04x}"),
        Some(Value::Four(number)) => write!(line, " 0x{number:08x}"),
    };
    line
}

/// What a row says behind the words that it begins with, and a space.
fn behind<'a>(front: &str, row: &'a [u8]) -> &'a [u8] {
    match row.strip_prefix(front.as_bytes()) {
        Some(rest) => rest.strip_prefix(b" ").unwrap_or(rest),
        None => row,
    }
}

/// Tells a person what the code of an abort means, where that is known. A fault of `err` is passed over.
fn explain<V: Write>(row: &[u8], err: &mut V) {
    if let Some(digits) = row.strip_prefix(b"abort 0x")
        && let Ok(digits) = str::from_utf8(digits)
        && let Ok(code) = u32::from_str_radix(digits, 16)
        && let Some(reason) = AbortCode::from_code(code)
    {
        let reason = reason.name();
        let _ = writeln!(err, "0x{code:08x}: {reason}");
    }
}
