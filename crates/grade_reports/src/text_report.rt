//! Rows in words.

use crate::cells::{put_cell, put_made};
use crate::reports::ReportedRow;
use grade_rows::{CountedEnd, put_plain_list, put_witness, reason_of};
use plain_text::TextWriter;

/// Adds the row of a submission, and a line for each of its ends, where they are counted.
pub(crate) fn put_row(out: &mut TextWriter, reported: &ReportedRow<'_>) {
    let row = reported.row;
    put_cell(out, reported.submission);
    out.put("\t");
    out.put(row.kind.word());
    out.put("\t");
    put_made(out, reason_of(out.alloc(), row, reported.form.named));
    out.put("\n");
    put_ends(out, &row.ends);
}

/// Adds a line for each of the ends, their counts in one column.
fn put_ends(out: &mut TextWriter, ends: &[CountedEnd]) {
    let mut most: usize = 0;
    for end in ends {
        most = most.max(end.count);
    }
    let width = width_of(out, most);
    for end in ends {
        put_end(out, width, end);
    }
}

/// How many decimal digits a number has.
fn width_of(out: &mut TextWriter, number: usize) -> usize {
    let alloc = out.alloc();
    match format!(in alloc; "{number}") {
        Ok(digits) => digits.len(),
        Err(_) => {
            out.lack_piece();
            0
        }
    }
}

/// Adds the line of ends that are counted as one.
fn put_end(out: &mut TextWriter, width: usize, end: &CountedEnd) {
    out.put("  ");
    out.put_right(end.count as u64, width);
    out.put("  ");
    out.put(match end.kind {
        Some(kind) => kind.name(),
        None => "broken",
    });
    out.put("  ");
    put_witness(out, &end.witness);
    if !end.text.is_empty() {
        out.put("   ");
        put_plain_list(out, &end.text);
    }
    if let Some(missed) = &end.missed {
        out.put("   NOT as expected: ");
        out.put_plain(&missed.text);
    }
    out.put("\n");
}
