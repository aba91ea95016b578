//! The line of a listing that tells how many packets were cut, and behind how many bytes.
ghost use Rattle.std.specs.Prelude.{◌≡◌, ◌≤◌, ◌+◌, ◌++◌, drop};
ghost use Rattle.ecat_list.specs.Cut.{cut_line_words, lengths_words, number_words};

use crate::row::Row;
use ecat_frames::CutPackets;

/// Puts the line of packets that were cut in front.
pub(crate) fn lead_cut(cut: &CutPackets, row: &mut Row)
    requires { 200 ≤ row.old.from }
    ensures { drop row.new.from row.new.bytes ≡ cut_line_words cut.now ++ drop row.old.from row.old.bytes }
{
    lead_number(cut.count, row);
    row.lead_bytes(b" bytes: ");
    lead_lengths(cut, row);
    row.lead_bytes(b"packets cut at ");
}

/// Puts in front how many they are, and what that means.
fn lead_number(count: u64, row: &mut Row)
    requires { 100 ≤ row.old.from }
    ensures at { row.old.from ≤ row.new.from + 60 }
    ensures written { drop row.new.from row.new.bytes
        ≡ number_words count ++ drop row.old.from row.old.bytes }
{
    row.lead_bytes(b"; no counter behind that is known\n");
    row.lead_decimal(count);
}

/// Puts in front behind how many bytes they are cut.
#[tactic(auto, unfolding(crate::specs::Cut::lengths_words))]
fn lead_lengths(cut: &CutPackets, row: &mut Row)
    requires { 100 ≤ row.old.from }
    ensures at { row.old.from ≤ row.new.from + 50 }
    ensures written { drop row.new.from row.new.bytes
        ≡ lengths_words cut.now.least cut.now.greatest ++ drop row.old.from row.old.bytes }
{
    row.lead_decimal(u64::from(cut.greatest));
    if cut.least != cut.greatest {
        row.lead_bytes(b" to ");
        row.lead_decimal(u64::from(cut.least));
    }
}
