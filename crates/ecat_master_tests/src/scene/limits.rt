//! How many lines of a kind, and how many bytes, a scene may have.

use super::lines_of;
use super::shown::put;
use ecat_scene::{Scene, SceneFault};
use std::alloc::{AllocError, Global};
use std::process::Abort;

/// Texts, and what is told of them. A row is a head, a unit, how often this comes, and a tail, with bars
/// between them; `/` ends a line, and the two `#` of a unit stand for its number, from 00.
const LIMITS: &str = "\
|slave 1/|256||256 slaves
|slave 1/|256|slave 1////|line 257: TooMany
|slave 1/|256|slave 6553x|line 257: BadNumber
|slave 1/|256|slave 65536|line 257: OutOfRange
|slave 1/|256|slave 65535|line 257: TooMany
slave 1/|object 1 ## 1 ro 0//|32||1 slaves; 32 objects
slave 1/|object 1 ## 1 ro 0//|33||line 66: TooMany
slave 1/|object 1 ## 1 ro 0//|32|object 1 00 1 ro 0//|line 66: TooMany
slave 1/|startup 1 0 01/|16|slave 2/startup 1 0 01|2 slaves; 17 startup objects
slave 1/|startup 1 0 01/|16|startup 1 0 01|line 18: TooMany
|frame 0e100701000030010200000000000000//////|32|////////|32 actions
|frame 0e100701000030010200000000000000//////|32|frame 00|line 193: TooMany
|frame 0e100701000030010200000000000000//////|32|frame 0g|line 193: BadNumber
|frame 0e100701000030010200000000000000//////|32|step////|line 193: TooMany
|frame 0e100701000030010200000000000000//////|32|step 1//|line 193: WrongCount
|lrd 0 00////////|32||32 items; 32 bytes
|lrd 0 00////////|33||line 257: TooMany
|lrd 0 00////////|32|brd 4096 00/////|line 257: OutOfRange
lrd 0 |0|2972||1 items; 1486 bytes
lrd 0 |0|2974||line 1: OutOfRange
|weather - - - a/|32||32 weathers
|weather - - - a/|33||line 33: TooMany
|weather - - - a/|32|weather - - - c/|line 33: BadNumber
|/|65536||
|/|65537||TooLong";

/// A row.
#[derive(Drop)]
struct Row<'a> {
    head: &'a str,
    unit: &'a str,
    count: usize,
    tail: &'a str,
    wanted: &'a str,
}

/// The row that a line of the table says.
fn row_of<'a>(rt: &impl Abort, line: &'a str) -> Row<'a> {
    let (head, rest) = line.split_once('|').expect(rt, "a head");
    let (unit, rest) = rest.split_once('|').expect(rt, "a unit");
    let (count, rest) = rest.split_once('|').expect(rt, "a count");
    let (tail, wanted) = rest.split_once('|').expect(rt, "a tail");
    let Ok(count) = count.parse::<usize>() else {
        panic!(rt; "{line}: no count");
    };
    Row {
        head,
        unit,
        count,
        tail,
        wanted,
    }
}

/// The text of a row.
fn text_of(alloc: Global, row: &Row) -> Result<Vec<u8>, AllocError> {
    let mut text = lines_of(alloc, row.head)?;
    let unit = lines_of(alloc, row.unit)?;
    for number in 0..row.count {
        let mut digit = number / 10;
        for byte in unit.iter() {
            if *byte == b'#' {
                text.push(b'0' + (digit % 10) as u8)?;
                digit = number;
            } else {
                text.push(*byte)?;
            }
        }
    }
    text.extend_from_slice(&lines_of(alloc, row.tail)?)?;
    Ok(text)
}

/// How many parts of each kind a scene has, where it has any.
fn counted(alloc: Global, scene: &Scene) -> Result<String, AllocError> {
    let mut objects = 0usize;
    let mut startups = 0usize;
    for slave in scene.slaves.iter() {
        objects = objects.saturating_add(slave.objects.count());
        startups = startups.saturating_add(slave.startup.len());
    }
    let mut bytes = 0usize;
    for item in scene.items.iter() {
        bytes = bytes.saturating_add(item.len());
    }
    let mut text = String::new(alloc);
    for (count, kind) in [
        (scene.slaves.len(), "slaves"),
        (objects, "objects"),
        (startups, "startup objects"),
        (scene.actions.len(), "actions"),
        (scene.items.len(), "items"),
        (bytes, "bytes"),
        (scene.weathers.len(), "weathers"),
    ] {
        if count != 0 {
            put(&mut text, format!(in alloc; "{count} {kind}")?.as_str())?;
        }
    }
    Ok(text)
}

/// What is told of a row's text, unless memory ran out.
fn told(alloc: Global, row: &Row) -> Option<String> {
    let text = text_of(alloc, row).ok()?;
    match Scene::read(alloc, &text) {
        Ok(scene) => counted(alloc, &scene).ok(),
        Err(SceneFault::NoMemory) => None,
        Err(fault) => format!(in alloc; "{fault}").ok(),
    }
}

#[test]
fn parts_and_bytes_are_so_many_at_most(rt: HostRuntime) {
    for line in LIMITS.split('\n') {
        let row = row_of(&rt, line);
        if let Some(found) = told(rt.alloc(), &row) {
            assert!(&rt; found.as_str() == row.wanted, "{line}: {found}");
        }
    }
}
