//! Mails that carry an SDO: the mailbox header (IEC 61158-4-12), the CoE header and the SDO (IEC 61158-6-12).

ghost use Rattle.std.specs.Prelude.{◌≡◌, ◌≤◌, ◌⊎◌, ◌++◌, ℕ, List, IfOk, IfErr, IfNone, OnOk, length};
ghost use Rattle.std.specs.Prelude.{IfSome, IsNone, None, true};
ghost use Rattle.std.specs.Option.{is_some};
ghost use Rattle.ec_app.specs.declared.mail.Mail.{Mail};
ghost use Rattle.ec_app.specs.Mail.{mail_bytes, mail_of, mail_fault, sent, IsMail, BeginsWith};
ghost use Rattle.ec_app.specs.Mail.{fault_for, service_of};
ghost use Rattle.ec_app.specs.Sdo.{IsProper};

use crate::sdo::Sdo;
use byteorder::{ByteOrder, LittleEndian};

/// The bytes of the mailbox header.
const HEADER_SIZE: usize = 6;

/// The bytes of a mail: both headers and the SDO.
pub const MAIL_SIZE: usize = 16;

/// The length that the mailbox header states: what follows it, the CoE header and the SDO.
const LENGTH: u16 = 10;

// Where the fields stand, in bytes.
const LENGTH_AT: usize = 0;

const ADDRESS_AT: usize = 2;

const CHANNEL_AT: usize = 4;

const TYPE_AT: usize = 5;

const COE_AT: usize = 6;

const SDO_AT: usize = 8;

/// The byte after the address: the channel is what is below this, and above it stands the priority.
const CHANNELS: u8 = 1 << 6;

/// The mailbox type of CoE.
const COE: u8 = 3;

/// The next byte: the type is what is below this, and above it stand
const TYPES: u8 = 1 << 4;

/// the counter, which is below this, and a reserved bit.
const COUNTERS: u8 = 1 << 3;

/// The CoE header: the number is what is below this, and above it stand
const NUMBERS: u16 = 1 << 9;

/// three reserved bits
const RESERVED: u16 = 1 << 3;

/// and the service, which begins at this bit.
const SERVICES: u16 = 1 << 12;

/// The service of an SDO request.
pub const REQUEST: u8 = 2;

/// The service of an SDO response.
pub const RESPONSE: u8 = 3;

/// A mail that carries an SDO: mailbox header (IEC 61158-4-12), CoE header and SDO (IEC 61158-6-12).
#[derive(Clone, Copy, Debug, PartialEq, Eq)]
pub struct Mail {
    /// The station address of the mail's source, 0 for the master.
    pub address: u16,
    /// Reserved for channels, 0 to 63.
    pub channel: u8,
    /// The priority, 0 (lowest) to 3.
    pub priority: u8,
    /// The counter, 1 to 7, by which a repeated mail is known; 0 is that of a mail that repeats none, which
    /// devices take.
    pub counter: u8,
    /// The number field of the CoE header, 0 to 511.
    pub number: u16,
    /// `REQUEST` or `RESPONSE`.
    pub service: u8,
    /// The SDO.
    pub sdo: Sdo,
}

/// What is wrong with bytes that are no mail.
#[derive(Clone, Copy, Debug, PartialEq, Eq)]
pub enum MailFault {
    /// The bytes end within the mailbox header, or within what it announces.
    Short,
    /// The mailbox type is not CoE, or the service is neither an SDO request nor an SDO response.
    WrongType,
    /// The counter is 0.
    BadCounter,
    /// A reserved bit is set.
    Reserved,
    /// The stated length is not that of a CoE header and an SDO.
    WrongLength,
}

/// The first fault of a mail's bytes for a slave, if they have one: a device takes the counter 0 as well.
#[tactic(auto, unfolding(crate::specs::Mail::fault_for))]
fn fault_for(device: bool, bytes: &[u8]) -> Option<MailFault>
    ensures value { result ≡ fault_for device bytes.now }
    ensures room { IfNone result (16 ≤ length bytes.now) }
    ensures service { IfNone result
        ((service_of bytes.now ≡ REQUEST) ⊎ (service_of bytes.now ≡ RESPONSE)) }
{
    if bytes.len() < HEADER_SIZE {
        return Some(MailFault::Short);
    }
    let type_byte = bytes[TYPE_AT];
    if type_byte / TYPES / COUNTERS != 0 {
        return Some(MailFault::Reserved);
    }
    if type_byte % TYPES != COE {
        return Some(MailFault::WrongType);
    }
    if !device && type_byte / TYPES % COUNTERS == 0 {
        return Some(MailFault::BadCounter);
    }
    if LittleEndian::read_u16(bytes) != LENGTH {
        return Some(MailFault::WrongLength);
    }
    if bytes.len() < MAIL_SIZE {
        return Some(MailFault::Short);
    }
    let coe = LittleEndian::read_u16(&bytes[COE_AT..]);
    if coe / NUMBERS % RESERVED != 0 {
        return Some(MailFault::Reserved);
    }
    let service = coe / SERVICES;
    if service != u16::from(REQUEST) && service != u16::from(RESPONSE) {
        return Some(MailFault::WrongType);
    }
    None
}

/// The first fault of a mail's bytes, if they have one.
#[tactic(auto, unfolding(crate::specs::Mail::mail_fault, crate::specs::Mail::fault_for))]
fn first_fault(bytes: &[u8]) -> Option<MailFault>
    ensures value { result ≡ mail_fault bytes.now }
    ensures room { IfNone result (16 ≤ length bytes.now) }
{
    fault_for(false, bytes)
}

/// The fields of a mail's bytes.
fn fields(bytes: &[u8]) -> Mail
    requires { 16 ≤ length bytes.now }
    ensures { result ≡ mail_of bytes.now }
{
    let coe = LittleEndian::read_u16(&bytes[COE_AT..]);
    let mut sdo = [0; 8];
    sdo.copy_from_slice(&bytes[SDO_AT..MAIL_SIZE]);
    Mail {
        address: LittleEndian::read_u16(&bytes[ADDRESS_AT..]),
        channel: bytes[CHANNEL_AT] % CHANNELS,
        priority: bytes[CHANNEL_AT] / CHANNELS,
        counter: bytes[TYPE_AT] / TYPES % COUNTERS,
        number: coe % NUMBERS,
        service: (coe / SERVICES) as u8,
        sdo: Sdo::read(&sdo),
    }
}

/// The mail that the bytes begin with, or their first fault.
fn decode(bytes: &[u8]) -> Result<Mail, MailFault>
    ensures found { IfOk result (BeginsWith bytes.now) }
    ensures good { OnOk result (mail_fault bytes.now ≡ None) }
    ensures fault { IfErr result (λ fault. mail_fault bytes.now ≡ Some fault) }
{
    match first_fault(bytes) {
        Some(fault) => Err(fault),
        None => Ok(fields(bytes)),
    }
}

impl Mail {
    /// The mail that the bytes begin with, or their first fault, in this order: `Short` of a mailbox header,
    /// `Reserved` and `WrongType` of its type byte, `BadCounter`, `WrongLength`, `Short` of the mail,
    /// `Reserved` and `WrongType` of the CoE header. What follows the sixteen bytes is padding and ignored.
    pub fn read(bytes: &[u8]) -> Result<Mail, MailFault>
        ensures found { IfOk result (BeginsWith bytes.now) }
        ensures good { OnOk result (mail_fault bytes.now ≡ None) }
        ensures fault { IfErr result (λ fault. mail_fault bytes.now ≡ Some fault) }
        ensures only { (m : Mail) (rest : List ℕ) → IsMail m → bytes.now ≡ mail_bytes m ++ rest
            → result ≡ Ok m }
    {
        decode(bytes)
    }

    /// The mail that the bytes begin with, as a slave takes it, if they are one: a device takes the counter 0
    /// as well.
    pub(crate) fn taken(device: bool, bytes: &[u8]) -> Option<Mail>
        ensures none { IsNone result → is_some (fault_for device bytes.now) ≡ true }
        ensures fine { IfSome result (λ mail. fault_for device bytes.now ≡ None) }
        ensures mail { IfSome result (λ mail. mail ≡ mail_of bytes.now) }
        ensures counter { IfSome result (λ mail. mail.counter ≤ 7) }
        ensures service { IfSome result (λ mail. (mail.service ≡ REQUEST) ⊎ (mail.service ≡ RESPONSE)) }
    {
        match fault_for(device, bytes) {
            Some(_) => None,
            None => Some(fields(bytes)),
        }
    }

    /// The bytes of this mail as it is sent: address, channel, priority and number are written as 0. They are
    /// read again as that mail, whatever follows them, where its counter is not 0 and its transfer is one
    /// that a mail can carry.
    pub fn write(&self) -> [u8; 16]
        requires counter { self.now.counter ≤ 7 }
        requires service { (self.now.service ≡ REQUEST) ⊎ (self.now.service ≡ RESPONSE) }
        ensures value { result ≡ mail_bytes (sent self.now) }
        ensures read_back { 1 ≤ self.now.counter → IsProper self.now.sdo
            → (rest : List ℕ) → BeginsWith (result ++ rest) (sent self.now) }
    {
        let mut bytes = [0; MAIL_SIZE];
        LittleEndian::write_u16(&mut bytes[LENGTH_AT..], LENGTH);
        bytes[TYPE_AT] = COE + TYPES * self.counter;
        LittleEndian::write_u16(&mut bytes[COE_AT..], SERVICES * u16::from(self.service));
        bytes[SDO_AT..].copy_from_slice(&self.sdo.write());
        bytes
    }
}

/// No mail's bytes begin another's, and no two mails have the same bytes: so a mail is read as it was
/// written, whatever follows it.
pub fn one_mail()
    ensures { (m n : Mail) (x y : List ℕ) → IsMail m → IsMail n
        → mail_bytes m ++ x ≡ mail_bytes n ++ y
        → (m ≡ n) × (x ≡ y) }
{}

/// The fields of a mail's bytes are that mail.
pub fn fields_of_mail()
    ensures { (bytes : List ℕ) (m : Mail) → BeginsWith bytes m → mail_of bytes ≡ m }
{}
