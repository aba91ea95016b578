//! `ecat vectors`: the worked rows, really run.

ghost use Rattle.std.specs.Prelude.{◌≡◌, Some};
ghost use Rattle.std.specs.List.{list_all};
ghost use Rattle.ecat_vectors.specs.Rows.{row_words, rows_status};

use crate::cycle_rows::{
    a_lost_copy_still_counts, gaps_are_short, no_slave_is_good, passing_twice_is_over,
    the_copy_that_came_back_counts,
};
use crate::frame_rows::{
    a_byte_too_much_is_left_over, another_index_is_a_stranger, changed_bytes_are_named,
    copies_are_joined, cut_frames_are_short, headers_are_tested_in_order, largest_frames_are_full,
    padding_is_for_ethernet_alone,
};
use crate::scene_rows::{
    a_full_mailbox_takes_no_mail, a_ring_of_one_turns_once, bits_are_taken_where_they_lie,
    broadcasts_reach_all, commands_of_one_frame_are_served, outputs_are_shown_whole,
    outputs_are_taken_and_inputs_given, read_and_written_is_refused, two_slaves_share_a_byte,
    unmapped_read_is_unchanged,
};
use crate::slave_rows::{
    an_error_stands_until_acknowledged, mails_are_answered_once,
    states_are_refused_with_their_codes,
};
use ecat_setup::LineFailure;
use ecat_text::{GOOD, Lines, REFUSED};
use std::alloc::Global;
use std::fmt;
use std::io::Write;

/// Runs all rows and prints a line for each.
#[inline(never)]
pub fn vectors<W: Write>(alloc: Global, out: &mut W) -> Result<u8, LineFailure> {
    let rows = [
        (1, unmapped_read_is_unchanged(alloc)?),
        (2, broadcasts_reach_all(alloc)?),
        (3, cut_frames_are_short()),
        (4, changed_bytes_are_named()),
        (5, a_byte_too_much_is_left_over()),
        (6, padding_is_for_ethernet_alone()),
        (7, headers_are_tested_in_order()),
        (8, largest_frames_are_full()),
        (9, commands_of_one_frame_are_served(alloc)?),
        (10, bits_are_taken_where_they_lie(alloc)?),
        (11, outputs_are_taken_and_inputs_given(alloc)?),
        (12, read_and_written_is_refused(alloc)?),
        (13, two_slaves_share_a_byte(alloc)?),
        (14, copies_are_joined()),
        (15, the_copy_that_came_back_counts(alloc)?),
        (16, a_ring_of_one_turns_once(alloc)?),
        (17, no_slave_is_good(alloc)?),
        (18, passing_twice_is_over(alloc)?),
        (19, a_lost_copy_still_counts(alloc)?),
        (20, gaps_are_short(alloc)?),
        (21, another_index_is_a_stranger()),
        (22, a_full_mailbox_takes_no_mail(alloc)?),
        (23, outputs_are_shown_whole(alloc)?),
        (24, mails_are_answered_once(alloc)?),
        (25, an_error_stands_until_acknowledged(alloc)?),
        (26, states_are_refused_with_their_codes(alloc)?),
    ];
    print_rows(&rows, &mut Lines::new(out))
}

/// A row as it is printed.
#[derive(Drop)]
struct RowText {
    number: u32,
    good: bool,
}

impl fmt::Display for RowText {
    ghost output = { λ row. Some (row_words row) };

    fn fmt<W: fmt::Write>(&self, f: &mut fmt::Formatter<W>) -> fmt::Result {
        let number = self.number;
        if self.good {
            write!(f, "row {number} ok")
        } else {
            write!(f, "row {number} wrong")
        }
    }
}

/// Prints a line for each row, by its number, and answers the status.
fn print_rows<W: Write>(rows: &[(u32, bool)], lines: &mut Lines<'_, W>) -> Result<u8, LineFailure> {
    for (number, good) in rows {
        lines.text(RowText {
            number: *number,
            good: *good,
        })?;
        lines.end()?;
    }
    Ok(status_of(rows))
}

/// The exit status that the rows give.
fn status_of(rows: &[(u32, bool)]) -> u8
    ensures { result ≡ rows_status rows.now }
{
    if all_good(rows) { GOOD } else { REFUSED }
}

/// Are all rows as they should be?
fn all_good(rows: &[(u32, bool)]) -> bool
    ensures { result ≡ list_all (λ row. row.1) rows.now }
{
    rows.iter().all(|row| row.1)
}
