//! Which frames are copies of one that was sent (IEC 61158-4-12, the datagram structure).

ghost use Rattle.std.specs.Prelude.{◌≡◌, ◌<◌, ◌≤◌, is_some, length, take};
ghost use Rattle.std.specs.Cmp.Lexicographic.{pointwise};
ghost use Rattle.ec_wire.specs.Datagram.{nth};
ghost use Rattle.ecat_trips.specs.Alike.{are_both, has_count, has_counted, is_still, kept_address, moves_adp};
ghost use Rattle.ecat_trips.specs.Alike.{number_at, number_at_first, number_behind, own_count, same_at};
ghost use Rattle.ecat_trips.specs.Alike.{same_frame, same_key, same_question, same_question_at, same_trip};
ghost use Rattle.ecat_trips.specs.Alike.{still_at, told_fast};

use ec_number::number_of;
use ec_wire::{Command, FrameBuf};

/// One more ADO in an address: the ADP has the 16 bits below it.
const ONE_ADO: u32 = 0x0001_0000;

/// May slaves count up the ADP of a command?
pub fn moves_adp(command: Command) -> bool
    ensures { result ≡ moves_adp command }
{
    matches!(
        command,
        Command::Aprd
            | Command::Apwr
            | Command::Aprw
            | Command::Brd
            | Command::Bwr
            | Command::Brw
            | Command::Armw
    )
}

/// The part of an address that slaves leave as it is: without the ADP, and so the ADO alone, where they count
/// it up.
pub fn kept_address(command: Command, address: u32) -> u32
    ensures { result ≡ kept_address command address }
{
    if moves_adp(command) {
        address / ONE_ADO
    } else {
        address
    }
}

/// The number that a frame bears behind datagrams of its own, if it bears one.
fn number_behind(frame: &FrameBuf) -> Option<u64>
    ensures { result ≡ number_behind frame.now }
{
    if 1 < frame.count() {
        number_of(frame)
    } else {
        None
    }
}

/// Does a frame bear a number behind datagrams of its own?
pub(crate) fn is_numbered(frame: &FrameBuf) -> bool
    ensures { result ≡ is_some (number_behind frame.now) }
{
    number_behind(frame).is_some()
}

/// How many datagrams of a frame are its own, in front: all but the one that carries its number, where it
/// bears one.
pub fn own_count(frame: &FrameBuf) -> usize
    ensures value { result ≡ own_count frame.now }
    ensures within { result ≤ length frame.now }
{
    match number_behind(frame) {
        None => frame.count(),
        Some(_) => frame.count() - 1,
    }
}

/// Are two numbers those of one trip, or none?
fn same_trip(sent: Option<u64>, number: Option<u64>) -> bool
    ensures { result ≡ same_trip sent number }
{
    match (sent, number) {
        (None, None) => true,
        (Some(sent), Some(number)) => sent / 2 == number / 2,
        (_, _) => false,
    }
}

/// Are two numbers those of the two copies of one trip, or none?
fn are_both(sent: Option<u64>, number: Option<u64>) -> bool
    ensures { result ≡ are_both sent number }
{
    match (sent, number) {
        (None, None) => true,
        (Some(sent), Some(number)) => sent / 2 == number / 2 && sent != number,
        (_, _) => false,
    }
}

/// Does the datagram at `k` ask what the sent one asked?
fn same_question_at(sent: &FrameBuf, frame: &FrameBuf, k: usize) -> bool
    requires sent { k < length sent.now }
    requires frame { k < length frame.now }
    ensures { result ≡ same_question_at (nth sent.now k) (nth frame.now k) }
{
    let command = sent.command(k);
    frame.command(k).code() == command.code()
        && frame.index(k) == sent.index(k)
        && frame.data(k).len() == sent.data(k).len()
        && kept_address(command, frame.address(k)) == kept_address(command, sent.address(k))
}

/// Does a frame ask what a sent one asked: in the same order the same commands, indexes, addresses but for an
/// ADP that slaves count up, and lengths? It may do so under another number.
pub(crate) fn same_question(sent: &FrameBuf, frame: &FrameBuf) -> bool
    ensures { result ≡ same_question sent.now frame.now }
{
    if sent.count() != frame.count() {
        return false;
    }
    for k in 0..sent.count() {
        if !same_question_at(sent, frame, k) {
            return false;
        }
    }
    true
}

/// Has a frame the key of a sent one: does it ask the same, under a number of the same trip where they bear
/// numbers?
pub fn same_key(sent: &FrameBuf, frame: &FrameBuf) -> bool
    ensures { result ≡ same_key sent.now frame.now }
{
    same_trip(number_behind(sent), number_behind(frame)) && same_question(sent, frame)
}

/// Command, index, length and kept address of the datagram at `k`, as one number.
fn number_at(frame: &FrameBuf, k: usize) -> u64
    requires { k < length frame.now }
    ensures { result ≡ number_at (nth frame.now k) }
{
    let command = frame.command(k);
    let code = u64::from(command.code());
    let index = u64::from(frame.index(k));
    let length = frame.data(k).len() as u64;
    let address = u64::from(kept_address(command, frame.address(k)));
    code + 16 * index + 4096 * length + 8_388_608 * address
}

/// What the first datagram of a frame asks, as one number.
fn number_at_first(frame: &FrameBuf) -> u64
    ensures { result ≡ number_at_first frame.now }
{
    if frame.count() == 0 {
        0
    } else {
        number_at(frame, 0)
    }
}

/// What of a frame's key is told fast, as one number: that of its trip, or of a frame without a number what
/// its first datagram asks. Frames of one key have one.
pub(crate) fn told_fast(frame: &FrameBuf) -> u64
    ensures { result ≡ told_fast frame.now }
{
    match number_behind(frame) {
        None => number_at_first(frame),
        Some(number) => number / 2,
    }
}

/// Is the datagram at `k` the sent one?
fn same_at(sent: &FrameBuf, frame: &FrameBuf, k: usize) -> bool
    requires sent { k < length sent.now }
    requires frame { k < length frame.now }
    ensures { result ≡ same_at (nth sent.now k) (nth frame.now k) }
{
    frame.command(k).code() == sent.command(k).code()
        && frame.index(k) == sent.index(k)
        && frame.address(k) == sent.address(k)
        && frame.irq(k) == sent.irq(k)
        && frame.counter(k) == sent.counter(k)
        && frame.data(k) == sent.data(k)
}

/// Are the first datagrams of a frame, so many, the sent ones?
fn same_datagrams(count: usize, sent: &FrameBuf, frame: &FrameBuf) -> bool
    requires sent { count ≤ length sent.now }
    requires frame { count ≤ length frame.now }
    ensures { result ≡ pointwise same_at (take count sent.now) (take count frame.now) }
{
    for k in 0..count {
        if !same_at(sent, frame, k) {
            return false;
        }
    }
    true
}

/// Is a frame the other copy of a sent one: has it the same datagrams, and where they bear numbers the other
/// number of the same trip?
pub fn same_frame(sent: &FrameBuf, frame: &FrameBuf) -> bool
    ensures { result ≡ same_frame sent.now frame.now }
{
    if !are_both(number_behind(sent), number_behind(frame)) {
        return false;
    }
    let count = own_count(sent);
    if own_count(frame) != count {
        return false;
    }
    same_datagrams(count, sent, frame)
}

/// Have neither the counter nor the address of the datagram at `k` moved?
fn still_at(sent: &FrameBuf, frame: &FrameBuf, k: usize) -> bool
    requires sent { k < length sent.now }
    requires frame { k < length frame.now }
    ensures { result ≡ still_at (nth sent.now k) (nth frame.now k) }
{
    frame.counter(k) == sent.counter(k) && frame.address(k) == sent.address(k)
}

/// Has a frame the counters and addresses of the sent one?
pub fn is_still(sent: &FrameBuf, frame: &FrameBuf) -> bool
    ensures { result ≡ is_still sent.now frame.now }
{
    if sent.count() != frame.count() {
        return false;
    }
    for k in 0..sent.count() {
        if !still_at(sent, frame, k) {
            return false;
        }
    }
    true
}

/// Is the counter of the datagram at `k` not 0?
fn has_count(frame: &FrameBuf, k: usize) -> bool
    requires { k < length frame.now }
    ensures { result ≡ has_count (nth frame.now k) }
{
    frame.counter(k) != 0
}

/// Is some counter of a frame not 0?
pub fn has_counted(frame: &FrameBuf) -> bool
    ensures { result ≡ has_counted frame.now }
{
    for k in 0..frame.count() {
        if has_count(frame, k) {
            return true;
        }
    }
    false
}
