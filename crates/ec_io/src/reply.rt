//! What a running master answers to a question.

ghost use Rattle.std.specs.Prelude.{◌≡◌, ◌+◌, ◌≤◌, ◌↔◌, ◌++◌, length, drop, Some, Err, IsOk, IfOk, IfErr};
ghost use Rattle.std.specs.Prelude.{IsOkAnd, OnErr};
ghost use Rattle.ec_io.specs.Reply.{IsReply, ReplyValue, last_number, reply_at, reply_bytes, reply_fault};
ghost use Rattle.ec_io.specs.Reply.{reply_head, reply_value, said_last};
ghost use Rattle.ec_io.specs.Fault.{first_of};
ghost use Rattle.ec_io.specs.Reply.{last_tests};
ghost use Rattle.ec_io.specs.declared.fault.PacketFault.{PacketFault};

use crate::fault::{NoRoom, PacketFault};
use crate::front::{front_fault, put_front, put_packet, text_fault, text_size};
use crate::layout::{LAST_AT, MAX_TEXT, NUMBER_AT, PLACE_AT, REPLY, REPLY_HEAD};
use crate::numbers::{u16_at, u64_at};
use byteorder::{ByteOrder, LittleEndian};

/// A run of what a running master answers to a question.
#[derive(Clone, Copy, PartialEq, Eq, Debug)]
pub struct Reply<'a> {
    /// The number of the question.
    pub number: u64,
    /// Behind how many others of its answer it stands.
    pub place: u16,
    /// Whether it is the last one of its answer.
    pub is_last: bool,
    /// A run of the answer's text, at most 1,024 bytes.
    pub text: &'a [u8],
}

impl<'a> Reply<'a> {
    /// The reply that the bytes are, all of them, or their first fault.
    pub fn read(bytes: &'a [u8]) -> Result<Reply<'a>, PacketFault>
        ensures found { IfOk result (λ reply. IsReply bytes.now (reply_value reply)) }
        ensures fault { IfErr result (λ fault. reply_fault bytes.now ≡ Some fault) }
        ensures only_found { (v : ReplyValue) → IsReply bytes.now v
            → IsOkAnd result (λ reply. reply_value reply ≡ v) }
        ensures only_fault { (f : PacketFault) → reply_fault bytes.now ≡ Some f → result ≡ Err f }
    {
        match reply_fault(bytes) {
            Some(fault) => Err(fault),
            None => Ok(reply_in(bytes)),
        }
    }

    /// Writes the reply to the front of `into`, leaves what is behind it, and says how many bytes it takes.
    /// Where there is no room for it, or the text is of more than 1,024 bytes, nothing is written.
    pub fn write(&self, into: &mut [u8]) -> Result<usize, NoRoom>
        ensures size { IfOk result (λ size. size ≡ REPLY_HEAD + length self.now.text.now) }
        ensures written { IfOk result (λ size. into.new
            ≡ reply_bytes (reply_value self.now) ++ drop size into.old) }
        ensures kept { OnErr result (into.new ≡ into.old) }
        ensures room { IsOk result ↔ ((length self.now.text.now ≤ MAX_TEXT)
            × (REPLY_HEAD + length self.now.text.now ≤ length into.old)) }
    {
        let size = text_size(REPLY_HEAD, self.text.len(), into.len())?;
        let head = reply_head(self, self.text.len() as u16);
        put_packet(into, &head, self.text);
        Ok(size)
    }
}

/// The first fault of bytes that are to be a reply.
fn reply_fault(bytes: &[u8]) -> Option<PacketFault>
    ensures { result ≡ reply_fault bytes.now }
{
    match front_fault(bytes, REPLY_HEAD, REPLY) {
        Some(fault) => Some(fault),
        None => last_fault(bytes),
    }
}

/// The first fault of a reply's fields behind its front.
fn last_fault(bytes: &[u8]) -> Option<PacketFault>
    requires { REPLY_HEAD ≤ length bytes.now }
    ensures { result ≡ first_of (last_tests bytes.now) }
{
    let last = u16_at(bytes, LAST_AT);
    if last > 1 {
        return Some(PacketFault::BadLast(last));
    }
    text_fault(bytes, REPLY_HEAD)
}

/// What the bytes of a reply say.
fn reply_in(bytes: &[u8]) -> Reply<'_>
    requires { REPLY_HEAD ≤ length bytes.now }
    ensures { reply_value result ≡ reply_at bytes.now }
{
    Reply {
        number: u64_at(bytes, NUMBER_AT),
        place: u16_at(bytes, PLACE_AT),
        is_last: u16_at(bytes, LAST_AT) == 1,
        text: &bytes[REPLY_HEAD..],
    }
}

/// The head of a reply, which has as many bytes of text.
fn reply_head(reply: &Reply<'_>, count: u16) -> [u8; REPLY_HEAD]
    requires { count ≡ length reply.now.text.now }
    ensures { result ≡ reply_head (reply_value reply.now) }
{
    let mut head = [0; REPLY_HEAD];
    put_front(&mut head, REPLY, count);
    LittleEndian::write_u64(&mut head[NUMBER_AT..], reply.number);
    LittleEndian::write_u16(&mut head[PLACE_AT..], reply.place);
    LittleEndian::write_u16(&mut head[LAST_AT..], last_number(reply.is_last));
    head
}

/// The number that says whether a reply is the last one of its answer.
fn last_number(is_last: bool) -> u16
    ensures { result ≡ last_number is_last }
{
    u16::from(is_last)
}
