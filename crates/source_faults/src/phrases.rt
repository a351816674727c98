//! Parts of sentences.

use crate::form::OperandForm;
use fault_messages::put_shown;
use plain_text::TextWriter;

/// Adds which name may be meant.
pub(crate) fn put_meant(out: &mut TextWriter, name: &[u8]) {
    out.put("did you mean ");
    put_shown(out, name);
    out.put("?");
}

/// Adds some words with commas between them, and `and` before the last.
pub(crate) fn put_listed(out: &mut TextWriter, words: &[&str]) {
    for (place, word) in words.iter().enumerate() {
        out.put(separator(place, words.len()));
        out.put(*word);
    }
}

/// What stands before the word at a place of so many.
fn separator(place: usize, count: usize) -> &'static str {
    if place == 0 {
        ""
    } else if count.saturating_sub(place) > 1 {
        ", "
    } else if count > 2 {
        ", and "
    } else {
        " and "
    }
}

/// Adds which operands have these forms, of which the first so many have to stand there.
pub(crate) fn put_operands(out: &mut TextWriter, forms: &[OperandForm], least: usize) {
    if forms.is_empty() {
        out.put("no operands");
    }
    for (place, form) in forms.iter().enumerate() {
        out.put(separator(place, forms.len()));
        if place >= least {
            out.put("perhaps ");
        }
        out.put(form.listed());
    }
}

/// Adds how many operands there are.
pub(crate) fn put_count(out: &mut TextWriter, count: usize) {
    if count == 0 {
        out.put("none");
    } else {
        out.put_number(count as u64);
    }
}
