//! Objects that a master reads and writes by mail, as its mails and their answers tell them (IEC 61158-6-12,
//! CoE service data objects).

use ec_app::Value;
use std::alloc::{AllocError, Global};

/// How many objects are kept of a capture.
const MAX_OBJECTS: usize = 8192;

/// An object, as mails tell it.
#[derive(Clone, Copy)]
pub(crate) struct Object {
    /// The place of its slave.
    pub slave: usize,
    /// Its index.
    pub index: u16,
    /// Its subindex.
    pub sub: u8,
    /// What it held last.
    pub value: Value,
    /// Was it read?
    pub read: bool,
    /// Was it written?
    pub written: bool,
}

/// An object that was written in a start-up.
#[derive(Clone, Copy)]
pub(crate) struct Written {
    /// In which start-up.
    pub epoch: u64,
    /// The place of its slave.
    pub slave: usize,
    /// Its index.
    pub index: u16,
    /// Its subindex.
    pub sub: u8,
    /// What was written.
    pub value: Value,
}

/// A request that waits for its answer.
#[derive(Clone, Copy)]
struct Request {
    slave: usize,
    index: u16,
    sub: u8,
    /// What is written; of a read nothing.
    value: Option<Value>,
}

/// What a mail is.
#[derive(Clone, Copy)]
enum Mail {
    /// A request to read an object.
    Upload(u16, u8),
    /// A request to write an object.
    Download(u16, u8, Option<Value>),
    /// The answer of a read.
    Uploaded(u16, u8, Option<Value>),
    /// The answer of a write.
    Downloaded(u16, u8),
    /// An abort.
    Abort,
    /// No SDO.
    Other,
}

/// The mails of a capture.
#[derive(Drop)]
pub(crate) struct Mails {
    requests: Vec<Request>,
    /// The objects, in the order in which they came first.
    pub objects: Vec<Object>,
    /// What was written in start-ups, in its order.
    pub written: Vec<Written>,
    /// How many transfers were not expedited, or had another size.
    pub long: u64,
    /// How many were aborted.
    pub aborted: u64,
}

/// The value of so many of four bytes, the lowest first; none of three.
fn value_of(size: usize, a: u8, b: u8, c: u8, d: u8) -> Option<Value> {
    match size {
        1 => Some(Value::One(a)),
        2 => Some(Value::Two(u16::from_le_bytes([a, b]))),
        4 => Some(Value::Four(u32::from_le_bytes([a, b, c, d]))),
        _ => None,
    }
}

/// How many bytes an expedited SDO carries by its first byte; none where it is not expedited.
fn size_of(first: u8) -> Option<usize> {
    if first & 0x02 == 0 {
        None
    } else if first & 0x01 == 0 {
        Some(4)
    } else {
        Some(4 - usize::from(first >> 2 & 3))
    }
}

/// What a mail is, by its 16 first bytes.
fn mail_of(mail: &[u8]) -> Mail {
    let [
        _,
        _,
        _,
        _,
        _,
        kind,
        _,
        service,
        first,
        low,
        high,
        sub,
        a,
        b,
        c,
        d,
        ..
    ] = mail
    else {
        return Mail::Other;
    };
    if kind & 0x0f != 3 {
        return Mail::Other;
    }
    let index = u16::from_le_bytes([*low, *high]);
    let value = match size_of(*first) {
        Some(size) => value_of(size, *a, *b, *c, *d),
        None => None,
    };
    match (service >> 4, first >> 5) {
        (2, 1) => Mail::Download(index, *sub, value),
        (2, 2) => Mail::Upload(index, *sub),
        (2, 4) => Mail::Abort,
        (3, 2) => Mail::Uploaded(index, *sub, value),
        (3, 3) => Mail::Downloaded(index, *sub),
        _ => Mail::Other,
    }
}

impl Mails {
    /// No mail came yet.
    pub(crate) fn new(alloc: Global) -> Mails {
        Mails {
            requests: Vec::new(alloc),
            objects: Vec::new(alloc),
            written: Vec::new(alloc),
            long: 0,
            aborted: 0,
        }
    }

    /// Puts a request in the place of the one of its slave.
    fn put_request(&mut self, request: Request) -> Result<(), AllocError> {
        for other in self.requests.iter_mut() {
            if other.slave == request.slave {
                *other = request;
                return Ok(());
            }
        }
        self.requests.push(request)?;
        Ok(())
    }

    /// Takes a mail that a slave was sent.
    pub(crate) fn take_request(&mut self, slave: usize, mail: &[u8]) -> Result<(), AllocError> {
        match mail_of(mail) {
            Mail::Upload(index, sub) => self.put_request(Request {
                slave,
                index,
                sub,
                value: None,
            }),
            Mail::Download(index, sub, value) => {
                if value.is_none() {
                    self.long = self.long.saturating_add(1);
                }
                self.put_request(Request {
                    slave,
                    index,
                    sub,
                    value,
                })
            }
            _ => Ok(()),
        }
    }

    /// What a slave was asked last of an object.
    fn request_of(&self, slave: usize, index: u16, sub: u8) -> Option<Request> {
        self.requests
            .iter()
            .find(|request| {
                request.slave == slave && request.index == index && request.sub == sub
            })
            .copied()
    }

    /// Keeps what an object holds.
    fn put_object(&mut self, object: Object) -> Result<(), AllocError> {
        for other in self.objects.iter_mut() {
            if other.slave == object.slave
                && other.index == object.index
                && other.sub == object.sub
            {
                other.value = object.value;
                other.read = other.read || object.read;
                other.written = other.written || object.written;
                return Ok(());
            }
        }
        if self.objects.len() < MAX_OBJECTS {
            self.objects.push(object)?;
        }
        Ok(())
    }

    /// Keeps what was written in a start-up, unless the same was written last.
    fn put_written(&mut self, written: Written) -> Result<(), AllocError> {
        let same = self.written.last().is_some_and(|last| {
            last.epoch == written.epoch
                && last.slave == written.slave
                && last.index == written.index
                && last.sub == written.sub
                && last.value == written.value
        });
        if !same && self.written.len() < MAX_OBJECTS {
            self.written.push(written)?;
        }
        Ok(())
    }

    /// Takes a mail that a slave sent; `start` is the start-up under way, where one is.
    pub(crate) fn take_answer(
        &mut self,
        slave: usize,
        mail: &[u8],
        start: Option<u64>,
    ) -> Result<(), AllocError> {
        match mail_of(mail) {
            Mail::Uploaded(index, sub, value) => self.take_read(slave, index, sub, value),
            Mail::Downloaded(index, sub) => self.take_written(slave, index, sub, start),
            Mail::Abort => {
                self.aborted = self.aborted.saturating_add(1);
                Ok(())
            }
            _ => Ok(()),
        }
    }

    /// Takes the answer of a read.
    fn take_read(
        &mut self,
        slave: usize,
        index: u16,
        sub: u8,
        value: Option<Value>,
    ) -> Result<(), AllocError> {
        let Some(value) = value else {
            self.long = self.long.saturating_add(1);
            return Ok(());
        };
        if self.request_of(slave, index, sub).is_none() {
            return Ok(());
        }
        self.put_object(Object {
            slave,
            index,
            sub,
            value,
            read: true,
            written: false,
        })
    }

    /// Takes the answer of a write.
    fn take_written(
        &mut self,
        slave: usize,
        index: u16,
        sub: u8,
        start: Option<u64>,
    ) -> Result<(), AllocError> {
        let Some(request) = self.request_of(slave, index, sub) else {
            return Ok(());
        };
        let Some(value) = request.value else {
            return Ok(());
        };
        self.put_request(Request {
            value: None,
            ..request
        })?;
        if let Some(epoch) = start {
            self.put_written(Written {
                epoch,
                slave,
                index,
                sub,
                value,
            })?;
        }
        self.put_object(Object {
            slave,
            index,
            sub,
            value,
            read: false,
            written: true,
        })
    }
}
