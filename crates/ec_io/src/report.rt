//! What a master tells of a cycle.

ghost use Rattle.std.specs.Prelude.{◌≡◌, ◌+◌, ◌≤◌, ◌↔◌, ◌++◌, [], length, drop, Some, Err, IsOk, IfOk, IfErr};
ghost use Rattle.std.specs.Prelude.{IfNone, IsOkAnd, IsTrue, OnErr};
ghost use Rattle.ec_io.specs.Cycle.{IsSpellable};
ghost use Rattle.ec_io.specs.Report.{IsReport, ReportValue, fields_fault, report_at, report_bytes};
ghost use Rattle.ec_io.specs.Report.{report_fault, report_head, report_value};
ghost use Rattle.ec_io.specs.declared.fault.PacketFault.{PacketFault};

use crate::cycle::{cycle_number, cycle_of, is_spellable};
use crate::end::{CycleEnded, has_item};
use crate::fault::{NoRoom, PacketFault};
use crate::flags::{flags_byte, has_flag};
use crate::front::{front_fault, packet_size, put_front, put_packet};
use crate::layout::{
    ALL_FLAGS, CYCLE_AT, END_AT, FLAGS_AT, INPUTS_OF_AT, ITEM_AT, LAST_END, LATE_AT, MAX_DATA,
    MISSING_A, MISSING_B, NOT_IN_OP, REPORT, REPORT_HEAD, STALE, TIME_AT,
};
use crate::numbers::{u16_at, u32_at, u64_at};
use byteorder::{ByteOrder, LittleEndian};

/// What a master tells of a cycle.
#[derive(Clone, Copy, PartialEq, Eq, Debug)]
pub struct Report<'a> {
    /// The number of the cycle.
    pub cycle: u64,
    /// When it was over, in microseconds since the master's pace began.
    pub at: u64,
    /// How it ended.
    pub end: CycleEnded,
    /// Are all slaves in Op?
    pub in_op: bool,
    /// Did no copy come at port A?
    pub missing_a: bool,
    /// Did no copy come at port B?
    pub missing_b: bool,
    /// Are the outputs stale, since no order came for as many cycles as was said?
    pub stale: bool,
    /// How many microseconds the cycle began late.
    pub late: u32,
    /// The number of the cycle that the inputs are of, the last good one, below `u64::MAX`; none where there
    /// was none yet.
    pub inputs_of: Option<u64>,
    /// The inputs, at most 65,535 bytes, and none at all where they are of no cycle.
    pub inputs: &'a [u8],
}

impl<'a> Report<'a> {
    /// The report that the bytes are, all of them, or their first fault.
    pub fn read(bytes: &'a [u8]) -> Result<Report<'a>, PacketFault>
        ensures found { IfOk result (λ report. IsReport bytes.now (report_value report)) }
        ensures fault { IfErr result (λ fault. report_fault bytes.now ≡ Some fault) }
        ensures only_found { (v : ReportValue) → IsReport bytes.now v
            → IsOkAnd result (λ report. report_value report ≡ v) }
        ensures only_fault { (f : PacketFault) → report_fault bytes.now ≡ Some f → result ≡ Err f }
    {
        match report_fault(bytes) {
            Some(fault) => Err(fault),
            None => Ok(report_in(bytes)),
        }
    }

    /// Can the report be written: is the cycle of its inputs below `u64::MAX`, or are there none of no cycle?
    pub fn is_spellable(&self) -> bool
        ensures { IsTrue result ↔ (IsSpellable self.now.inputs_of
            × IfNone self.now.inputs_of (self.now.inputs.now ≡ [])) }
    {
        match self.inputs_of {
            Some(_) => is_spellable(self.inputs_of),
            None => self.inputs.is_empty(),
        }
    }

    /// Writes the report to the front of `into`, leaves what is behind it, and says how many bytes it takes.
    /// Where there is no room for it, or the inputs are more than 65,535 bytes, nothing is written.
    pub fn write(&self, into: &mut [u8]) -> Result<usize, NoRoom>
        requires spellable { IsSpellable self.now.inputs_of }
        requires none { IfNone self.now.inputs_of (self.now.inputs.now ≡ []) }
        ensures size { IfOk result (λ size. size ≡ REPORT_HEAD + length self.now.inputs.now) }
        ensures written { IfOk result (λ size. into.new
            ≡ report_bytes (report_value self.now) ++ drop size into.old) }
        ensures kept { OnErr result (into.new ≡ into.old) }
        ensures room { IsOk result ↔ ((length self.now.inputs.now ≤ MAX_DATA)
            × (REPORT_HEAD + length self.now.inputs.now ≤ length into.old)) }
    {
        let size = packet_size(REPORT_HEAD, self.inputs.len(), into.len())?;
        let head = report_head(self, self.inputs.len() as u16);
        put_packet(into, &head, self.inputs);
        Ok(size)
    }
}

/// The first fault of bytes that are to be a report.
fn report_fault(bytes: &[u8]) -> Option<PacketFault>
    ensures { result ≡ report_fault bytes.now }
{
    match front_fault(bytes, REPORT_HEAD, REPORT) {
        Some(fault) => Some(fault),
        None => fields_fault(bytes),
    }
}

/// The first fault of a report's fields behind its front.
#[tactic(auto, unfolding(crate::specs::Report::fields_fault))]
fn fields_fault(bytes: &[u8]) -> Option<PacketFault>
    requires { REPORT_HEAD ≤ length bytes.now }
    ensures { result ≡ fields_fault bytes.now }
{
    if bytes[END_AT] > LAST_END {
        return Some(PacketFault::BadEnd(bytes[END_AT]));
    }
    if bytes[FLAGS_AT] > ALL_FLAGS {
        return Some(PacketFault::BadFlags(bytes[FLAGS_AT]));
    }
    let item = u16_at(bytes, ITEM_AT);
    if !has_item(bytes[END_AT]) && item != 0 {
        return Some(PacketFault::BadItem(item));
    }
    let inputs_of = cycle_of(u64_at(bytes, INPUTS_OF_AT));
    if inputs_of.is_none() && bytes.len() > REPORT_HEAD {
        return Some(PacketFault::BadInputs);
    }
    None
}

/// What the bytes of a report say.
fn report_in(bytes: &[u8]) -> Report<'_>
    requires { REPORT_HEAD ≤ length bytes.now }
    ensures { report_value result ≡ report_at bytes.now }
{
    let flags = bytes[FLAGS_AT];
    let item = u16_at(bytes, ITEM_AT);
    Report {
        cycle: u64_at(bytes, CYCLE_AT),
        at: u64_at(bytes, TIME_AT),
        end: CycleEnded::of(bytes[END_AT], item),
        in_op: !has_flag(NOT_IN_OP, flags),
        missing_a: has_flag(MISSING_A, flags),
        missing_b: has_flag(MISSING_B, flags),
        stale: has_flag(STALE, flags),
        late: u32_at(bytes, LATE_AT),
        inputs_of: cycle_of(u64_at(bytes, INPUTS_OF_AT)),
        inputs: &bytes[REPORT_HEAD..],
    }
}

/// The head of a report, which has as many bytes of inputs.
fn report_head(report: &Report<'_>, count: u16) -> [u8; REPORT_HEAD]
    requires { count ≡ length report.now.inputs.now }
    ensures { result ≡ report_head (report_value report.now) }
{
    let mut head = [0; REPORT_HEAD];
    put_front(&mut head, REPORT, count);
    LittleEndian::write_u64(&mut head[CYCLE_AT..], report.cycle);
    LittleEndian::write_u64(&mut head[TIME_AT..], report.at);
    head[END_AT] = report.end.code();
    head[FLAGS_AT] = flags_byte(
        report.in_op,
        report.missing_a,
        report.missing_b,
        report.stale,
    );
    LittleEndian::write_u16(&mut head[ITEM_AT..], report.end.item());
    LittleEndian::write_u32(&mut head[LATE_AT..], report.late);
    LittleEndian::write_u64(&mut head[INPUTS_OF_AT..], cycle_number(report.inputs_of));
    head
}
