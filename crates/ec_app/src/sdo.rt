//! Service data objects of CoE, expedited (IEC 61158-6-12, SDO services).

ghost use Rattle.std.specs.Prelude.{◌≡◌};
ghost use Rattle.ec_app.specs.Sdo.{index_of, are_zero, spelt, uploaded, download};

use crate::value::Value;
use byteorder::{ByteOrder, LittleEndian};

// Where the fields stand, in bytes.
const INDEX_AT: usize = 1;

const SUB_AT: usize = 3;

const DATA_AT: usize = 4;

// The commands, by what they do and how many bytes of data they use.
const UPLOAD: u8 = 0x40;

const UPLOADED_FOUR: u8 = 0x43;

const UPLOADED_TWO: u8 = 0x4B;

const UPLOADED_ONE: u8 = 0x4F;

const DOWNLOAD_FOUR: u8 = 0x23;

const DOWNLOAD_TWO: u8 = 0x2B;

const DOWNLOAD_ONE: u8 = 0x2F;

const DOWNLOADED: u8 = 0x60;

const ABORT: u8 = 0x80;

/// The data of an SDO that uses none.
const NO_DATA: [u8; 4] = [0; 4];

/// One expedited SDO of eight bytes (IEC 61158-6-12, SDO services): every eight bytes are exactly one.
#[derive(Clone, Copy, Debug, PartialEq, Eq)]
pub enum Sdo {
    /// Asks for a value.
    Upload {
        /// The object's index.
        index: u16,
        /// The subindex of the object.
        sub: u8,
    },
    /// Answers an upload.
    UploadAnswer {
        /// The object's index.
        index: u16,
        /// The subindex of the object.
        sub: u8,
        /// The value of the object.
        value: Value,
    },
    /// Asks that a value be taken.
    Download {
        /// The object's index.
        index: u16,
        /// The subindex of the object.
        sub: u8,
        /// The value to be taken.
        value: Value,
    },
    /// Answers a download.
    DownloadAnswer {
        /// The object's index.
        index: u16,
        /// The subindex of the object.
        sub: u8,
    },
    /// Refuses a request, or ends it.
    Abort {
        /// The object's index.
        index: u16,
        /// The subindex of the object.
        sub: u8,
        /// Why.
        code: u32,
    },
    /// Any other eight bytes.
    Other([u8; 8]),
}

/// The index in eight bytes.
fn index_of(bytes: &[u8; 8]) -> u16
    ensures { result ≡ index_of bytes.now }
{
    LittleEndian::read_u16(&bytes[INDEX_AT..])
}

/// Are these bytes 0?
fn are_zero(bytes: &[u8]) -> bool
    ensures { result ≡ are_zero bytes.now }
{
    bytes.iter().all(|byte| *byte == 0)
}

/// The command of an upload's answer with this value.
fn uploaded(value: Value) -> u8
    ensures { result ≡ uploaded value }
{
    match value {
        Value::One(_) => UPLOADED_ONE,
        Value::Two(_) => UPLOADED_TWO,
        Value::Four(_) => UPLOADED_FOUR,
    }
}

/// The command of a download of this value.
fn download(value: Value) -> u8
    ensures { result ≡ download value }
{
    match value {
        Value::One(_) => DOWNLOAD_ONE,
        Value::Two(_) => DOWNLOAD_TWO,
        Value::Four(_) => DOWNLOAD_FOUR,
    }
}

/// The eight bytes of an SDO with these fields.
fn spelt(command: u8, index: u16, sub: u8, payload: [u8; 4]) -> [u8; 8]
    ensures { result ≡ spelt command index sub payload }
{
    let [index_low, index_high] = index.to_le_bytes();
    let [first, second, third, fourth] = payload;
    [
        command, index_low, index_high, sub, first, second, third, fourth,
    ]
}

impl Sdo {
    ghost use Rattle.ec_app.specs.Sdo.{index, sub, sdo_of, sdo_bytes, FitsNumbers, IsProper};

    /// The SDO that these bytes spell. Bytes that fit no row of the table of expedited SDOs are kept
    /// as `Other`, also a known command with a data byte that it does not use and that is not 0.
    pub fn read(bytes: &[u8; 8]) -> Sdo
        ensures value { result ≡ sdo_of bytes.now }
        ensures written_back { sdo_bytes result ≡ bytes.now }
        ensures proper { IsProper result }
    {
        Sdo::decoded(bytes)
    }

    /// The bytes that spell this SDO. (Its clause `fits` is what a proof knows of every SDO.)
    pub fn write(&self) -> [u8; 8]
        ensures value { result ≡ sdo_bytes self.now }
        ensures fits { FitsNumbers self.now }
        ensures read_back { IsProper self.now → sdo_of result ≡ self.now }
    {
        match *self {
            Sdo::Upload { index, sub } => spelt(UPLOAD, index, sub, NO_DATA),
            Sdo::UploadAnswer { index, sub, value } => {
                spelt(uploaded(value), index, sub, value.bytes())
            }
            Sdo::Download { index, sub, value } => {
                spelt(download(value), index, sub, value.bytes())
            }
            Sdo::DownloadAnswer { index, sub } => spelt(DOWNLOADED, index, sub, NO_DATA),
            Sdo::Abort { index, sub, code } => spelt(ABORT, index, sub, code.to_le_bytes()),
            Sdo::Other(bytes) => bytes,
        }
    }

    /// The index that it names; that of an `Other` is what its bytes have at the index's place.
    pub fn index(&self) -> u16
        ensures { result ≡ index self.now }
    {
        match *self {
            Sdo::Upload { index, .. }
            | Sdo::UploadAnswer { index, .. }
            | Sdo::Download { index, .. }
            | Sdo::DownloadAnswer { index, .. }
            | Sdo::Abort { index, .. } => index,
            Sdo::Other(bytes) => index_of(&bytes),
        }
    }

    /// The subindex that it names; that of an `Other` is what its bytes have at the subindex's place.
    pub fn sub(&self) -> u8
        ensures { result ≡ sub self.now }
    {
        match *self {
            Sdo::Upload { sub, .. }
            | Sdo::UploadAnswer { sub, .. }
            | Sdo::Download { sub, .. }
            | Sdo::DownloadAnswer { sub, .. }
            | Sdo::Abort { sub, .. } => sub,
            Sdo::Other(bytes) => bytes[SUB_AT],
        }
    }

    /// The SDO that these bytes spell.
    #[tactic(auto, unfolding(crate::specs::Sdo::sdo_of))]
    fn decoded(bytes: &[u8; 8]) -> Sdo
        ensures { result ≡ sdo_of bytes.now }
    {
        let index = index_of(bytes);
        let sub = bytes[SUB_AT];
        let one = Value::One(bytes[DATA_AT]);
        let two = Value::Two(LittleEndian::read_u16(&bytes[DATA_AT..]));
        let code = LittleEndian::read_u32(&bytes[DATA_AT..]);
        let four = Value::Four(code);
        match bytes[0] {
            UPLOAD if are_zero(&bytes[DATA_AT..]) => Sdo::Upload { index, sub },
            UPLOADED_FOUR => Sdo::UploadAnswer {
                index,
                sub,
                value: four,
            },
            UPLOADED_TWO if are_zero(&bytes[DATA_AT + 2..]) => Sdo::UploadAnswer {
                index,
                sub,
                value: two,
            },
            UPLOADED_ONE if are_zero(&bytes[DATA_AT + 1..]) => Sdo::UploadAnswer {
                index,
                sub,
                value: one,
            },
            DOWNLOAD_FOUR => Sdo::Download {
                index,
                sub,
                value: four,
            },
            DOWNLOAD_TWO if are_zero(&bytes[DATA_AT + 2..]) => Sdo::Download {
                index,
                sub,
                value: two,
            },
            DOWNLOAD_ONE if are_zero(&bytes[DATA_AT + 1..]) => Sdo::Download {
                index,
                sub,
                value: one,
            },
            DOWNLOADED if are_zero(&bytes[DATA_AT..]) => Sdo::DownloadAnswer { index, sub },
            ABORT => Sdo::Abort { index, sub, code },
            _ => Sdo::Other(*bytes),
        }
    }
}
