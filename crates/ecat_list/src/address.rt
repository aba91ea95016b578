//! The address of a datagram as text.
ghost use Rattle.std.specs.Prelude.{◌≡◌, ◌≤◌, ◌+◌, ◌++◌, OnOk, drop};
ghost use Rattle.ecat_list.specs.Address.{address_words, kind_of, place_words, register_words};

use crate::row::Row;
use crate::text::{four_digits, put_byte, put_decimal, put_eight_digits, put_four_digits};
use ec_wire::{Command, ado_of, adp_of};
use ecat_trips::moves_adp;
use std::alloc::AllocError;

/// How a command's address is read.
#[derive(Clone, Copy)]
enum Kind {
    /// One number of 32 bits.
    Logical,
    /// A place on the line, which counts down to 0, and a register.
    Place,
    /// A station's address, or how many slaves a broadcast has passed, and a register.
    Station,
}

/// How the address of this command is read.
fn kind_of(command: Command) -> Kind
    ensures { result ≡ kind_of command }
{
    match command {
        Command::Lrd | Command::Lwr | Command::Lrw => Kind::Logical,
        Command::Aprd | Command::Apwr | Command::Aprw | Command::Armw => Kind::Place,
        Command::Fprd | Command::Fpwr | Command::Fprw | Command::Frmw => Kind::Station,
        Command::Brd | Command::Bwr | Command::Brw | Command::Nop => Kind::Station,
    }
}

/// Puts a datagram's address: `0x00010000` of a logical command, `-2:0x0130` by a place on the line, and
/// `0x1001:0x0130` by a station's address; a broadcast has there how many slaves it has passed.
pub(crate) fn put_address(
    text: &mut Vec<u8>,
    command: Command,
    address: u32,
) -> Result<(), AllocError>
    ensures { OnOk result (text.new.items ≡ text.old.items ++ address_words command address) }
{
    match kind_of(command) {
        Kind::Logical => {
            text.extend_from_slice(b"0x")?;
            put_eight_digits(text, address)
        }
        Kind::Place => {
            put_place(text, adp_of(address))?;
            put_register(text, address)
        }
        Kind::Station => {
            text.extend_from_slice(b"0x")?;
            put_four_digits(text, adp_of(address))?;
            put_register(text, address)
        }
    }
}

/// Puts the address of a group: as a datagram's, or `0x0130` of a command whose ADP slaves count up, where it
/// is the ADO alone.
pub(crate) fn put_group_address(
    text: &mut Vec<u8>,
    command: Command,
    address: u32,
) -> Result<(), AllocError> {
    if moves_adp(command) {
        text.extend_from_slice(b"0x")?;
        put_four_digits(text, (address % 65536) as u16)
    } else {
        put_address(text, command, address)
    }
}

/// Puts a place on the line, as a signed number.
fn put_place(text: &mut Vec<u8>, adp: u16) -> Result<(), AllocError>
    ensures { OnOk result (text.new.items ≡ text.old.items ++ place_words adp) }
{
    if adp < 0x8000 {
        put_decimal(text, u64::from(adp))
    } else {
        put_byte(text, b'-')?;
        put_decimal(text, 0x1_0000 - u64::from(adp))
    }
}

/// Puts a register's address behind a colon.
fn put_register(text: &mut Vec<u8>, address: u32) -> Result<(), AllocError>
    ensures { OnOk result (text.new.items ≡ text.old.items ++ register_words address) }
{
    text.extend_from_slice(b":0x")?;
    put_four_digits(text, ado_of(address))
}

/// Puts a datagram's address in front of a row.
pub(crate) fn lead_address(row: &mut Row, command: Command, address: u32)
    requires { 28 ≤ row.old.from }
    ensures at { row.old.from ≤ row.new.from + 28 }
    ensures written { drop row.new.from row.new.bytes
        ≡ address_words command address ++ drop row.old.from row.old.bytes }
{
    match kind_of(command) {
        Kind::Logical => {
            row.lead_bytes(&four_digits((address % 65536) as u16));
            row.lead_bytes(&four_digits((address / 65536) as u16));
            row.lead_bytes(b"0x");
        }
        Kind::Place => {
            lead_register(row, address);
            lead_place(row, adp_of(address));
        }
        Kind::Station => {
            lead_register(row, address);
            row.lead_bytes(&four_digits(adp_of(address)));
            row.lead_bytes(b"0x");
        }
    }
}

/// Puts a place on the line in front, as a signed number.
fn lead_place(row: &mut Row, adp: u16)
    requires { 21 ≤ row.old.from }
    ensures at { row.old.from ≤ row.new.from + 21 }
    ensures written { drop row.new.from row.new.bytes
        ≡ place_words adp ++ drop row.old.from row.old.bytes }
{
    if adp < 0x8000 {
        row.lead_decimal(u64::from(adp));
    } else {
        row.lead_decimal(0x1_0000 - u64::from(adp));
        row.lead_byte(b'-');
    }
}

/// Puts a register's address in front, behind a colon.
fn lead_register(row: &mut Row, address: u32)
    requires { 7 ≤ row.old.from }
    ensures at { row.new.from + 7 ≡ row.old.from }
    ensures written { drop row.new.from row.new.bytes
        ≡ register_words address ++ drop row.old.from row.old.bytes }
{
    row.lead_bytes(&four_digits(ado_of(address)));
    row.lead_bytes(b":0x");
}
