//! What somebody asks a running master.

ghost use Rattle.std.specs.Prelude.{◌≡◌, ◌+◌, ◌≤◌, ◌↔◌, ◌++◌, length, drop, Some, Err, IsOk, IfOk, IfErr};
ghost use Rattle.std.specs.Prelude.{IsOkAnd, OnErr};
ghost use Rattle.ec_io.specs.Question.{IsQuestion, QuestionValue, question_at, question_bytes};
ghost use Rattle.ec_io.specs.Question.{question_fault, question_head, question_value};
ghost use Rattle.ec_io.specs.declared.fault.PacketFault.{PacketFault};

use crate::fault::{NoRoom, PacketFault};
use crate::front::{front_fault, put_front, put_packet, text_fault, text_size};
use crate::layout::{MAX_TEXT, NUMBER_AT, QUESTION, QUESTION_HEAD};
use crate::numbers::u64_at;
use byteorder::{ByteOrder, LittleEndian};

/// What somebody asks a running master.
#[derive(Clone, Copy, PartialEq, Eq, Debug)]
pub struct Question<'a> {
    /// The number that the asker chose: the answer has it too, and a question that is sent again keeps it.
    pub number: u64,
    /// The line, at most 1,024 bytes.
    pub line: &'a [u8],
}

impl<'a> Question<'a> {
    /// The question that the bytes are, all of them, or their first fault.
    pub fn read(bytes: &'a [u8]) -> Result<Question<'a>, PacketFault>
        ensures found { IfOk result (λ question. IsQuestion bytes.now (question_value question)) }
        ensures fault { IfErr result (λ fault. question_fault bytes.now ≡ Some fault) }
        ensures only_found { (v : QuestionValue) → IsQuestion bytes.now v
            → IsOkAnd result (λ question. question_value question ≡ v) }
        ensures only_fault { (f : PacketFault) → question_fault bytes.now ≡ Some f → result ≡ Err f }
    {
        match question_fault(bytes) {
            Some(fault) => Err(fault),
            None => Ok(question_in(bytes)),
        }
    }

    /// Writes the question to the front of `into`, leaves what is behind it, and says how many bytes it
    /// takes. Where there is no room for it, or the line is of more than 1,024 bytes, nothing is written.
    pub fn write(&self, into: &mut [u8]) -> Result<usize, NoRoom>
        ensures size { IfOk result (λ size. size ≡ QUESTION_HEAD + length self.now.line.now) }
        ensures written { IfOk result (λ size. into.new
            ≡ question_bytes (question_value self.now) ++ drop size into.old) }
        ensures kept { OnErr result (into.new ≡ into.old) }
        ensures room { IsOk result ↔ ((length self.now.line.now ≤ MAX_TEXT)
            × (QUESTION_HEAD + length self.now.line.now ≤ length into.old)) }
    {
        let size = text_size(QUESTION_HEAD, self.line.len(), into.len())?;
        let head = question_head(self.number, self.line.len() as u16);
        put_packet(into, &head, self.line);
        Ok(size)
    }
}

/// The first fault of bytes that are to be a question.
fn question_fault(bytes: &[u8]) -> Option<PacketFault>
    ensures { result ≡ question_fault bytes.now }
{
    match front_fault(bytes, QUESTION_HEAD, QUESTION) {
        Some(fault) => Some(fault),
        None => text_fault(bytes, QUESTION_HEAD),
    }
}

/// What the bytes of a question say.
fn question_in(bytes: &[u8]) -> Question<'_>
    requires { QUESTION_HEAD ≤ length bytes.now }
    ensures { question_value result ≡ question_at bytes.now }
{
    Question {
        number: u64_at(bytes, NUMBER_AT),
        line: &bytes[QUESTION_HEAD..],
    }
}

/// The head of a question with as many bytes of a line.
fn question_head(number: u64, count: u16) -> [u8; QUESTION_HEAD]
    ensures { result ≡ question_head number count }
{
    let mut head = [0; QUESTION_HEAD];
    put_front(&mut head, QUESTION, count);
    LittleEndian::write_u64(&mut head[NUMBER_AT..], number);
    head
}
