//! What the end of a run shows in place of what is expected, in words: `[8] should be 4, and is 1`.

use exercise_advice::expected::{Expectation, FullEmpty, Relation};
use exercise_advice::{FoundInstead, Shortfall};
use exercise_files::parts::texts::{NumberStyle, ProgramNames, RunPieces, full_word};
use plain_text::TextWriter;

/// How numbers are shown.
const STYLE: NumberStyle = NumberStyle::Decimal;

/// Adds what is expected, and what is found instead.
pub(crate) fn put_shortfall(out: &mut TextWriter, names: &ProgramNames<'_>, shortfall: &Shortfall) {
    let found = shortfall.found;
    match shortfall.expectation {
        Expectation::Word {
            address,
            value,
            state,
        } => {
            names.put_address(out, address);
            put_wanted_word(out, value, state);
            put_found_word(out, names, value, state, found);
        }
        Expectation::Words {
            first,
            last,
            value,
            state,
        } => {
            put_range(out, names, "each word from ", first, last);
            put_wanted_word(out, value, state);
            put_found_among(out, names, value, state, found);
        }
        Expectation::Compared {
            address,
            relation,
            other,
            more,
        } => {
            names.put_address(out, address);
            put_wanted_relation(out, names, relation, other, more);
            put_found_value(out, names, relation, more, found);
        }
        other => {
            put_wanted(out, names, other);
            put_found(out, names, found);
        }
    }
}

/// Adds what is expected of a sum, a register, a stream or all streams.
fn put_wanted(out: &mut TextWriter, names: &ProgramNames<'_>, expectation: Expectation) {
    match expectation {
        Expectation::Sum { first, last, value } => {
            put_range(out, names, "the words from ", first, last);
            out.put(" should have the sum ");
            out.put_value(STYLE, value);
        }
        Expectation::Register {
            p,
            s,
            number,
            value,
        } => put_wanted_register(out, p, s, number, value),
        Expectation::Stopped { p, s, trap } => {
            out.put_stream(p, s);
            out.put(" should be stopped by trap ");
            out.put_number(u64::from(trap));
        }
        Expectation::Finished
        | Expectation::Word { .. }
        | Expectation::Words { .. }
        | Expectation::Compared { .. }
        | Expectation::Waits { .. }
        | Expectation::Loops => out.put("every stream should have finished"),
    }
}

/// Adds the words from one byte address to another.
fn put_range(out: &mut TextWriter, names: &ProgramNames<'_>, head: &str, first: u64, last: u64) {
    out.put(head);
    names.put_address(out, first);
    out.put(" to ");
    names.put_address(out, last);
}

/// Adds what a word should be.
fn put_wanted_word(out: &mut TextWriter, value: u64, state: Option<FullEmpty>) {
    out.put(" should be ");
    out.put_value(STYLE, value);
    if let Some(state) = state {
        out.put(" and ");
        out.put(full_word(state == FullEmpty::Full));
    }
}

/// Adds what a register should hold.
fn put_wanted_register(out: &mut TextWriter, p: u8, s: u8, number: u8, value: u64) {
    out.put("r");
    out.put_number(u64::from(number));
    out.put(" of ");
    out.put_stream(p, s);
    out.put(" should be ");
    out.put_value(STYLE, value);
}

/// Adds how a word should stand to another one and a number.
fn put_wanted_relation(
    out: &mut TextWriter,
    names: &ProgramNames<'_>,
    relation: Relation,
    other: u64,
    more: u64,
) {
    out.put(match relation {
        Relation::Is => " should be equal to ",
        Relation::Above | Relation::AboveSigned => " should be above ",
        Relation::Below | Relation::BelowSigned => " should be below ",
    });
    names.put_address(out, other);
    if more == 0 {
        return;
    }
    let number = more.cast_signed();
    out.put(if number < 0 { " - " } else { " + " });
    out.put_number(number.unsigned_abs());
}

/// Adds the word that is found in place of one that should have this value and this state: only what is another.
fn put_found_word(
    out: &mut TextWriter,
    names: &ProgramNames<'_>,
    value: u64,
    state: Option<FullEmpty>,
    found: FoundInstead,
) {
    let FoundInstead::Word {
        value: held,
        is_full,
        ..
    } = found
    else {
        return put_found(out, names, found);
    };
    out.put(", and is ");
    put_other(out, (value, held), state, is_full);
}

/// Adds what a word has that should have the first of these values, and this state: the second value, and whether it is full.
fn put_other(
    out: &mut TextWriter,
    (value, held): (u64, u64),
    state: Option<FullEmpty>,
    is_full: bool,
) {
    let is_other = held != value;
    if is_other {
        out.put_value(STYLE, held);
    }
    let Some(state) = state else {
        return;
    };
    if is_full != (state == FullEmpty::Full) {
        out.put(if is_other { " and " } else { "" });
        out.put(full_word(is_full));
    }
}

/// Adds the word that is found among those that should have this value and this state.
fn put_found_among(
    out: &mut TextWriter,
    names: &ProgramNames<'_>,
    value: u64,
    state: Option<FullEmpty>,
    found: FoundInstead,
) {
    let FoundInstead::Word {
        address,
        value: held,
        is_full,
    } = found
    else {
        return put_found(out, names, found);
    };
    out.put(", and ");
    names.put_address(out, address);
    out.put(" is ");
    put_other(out, (value, held), state, is_full);
}

/// Adds the value that is found of a word that is compared with another one and a number, and what these two are together.
fn put_found_value(
    out: &mut TextWriter,
    names: &ProgramNames<'_>,
    relation: Relation,
    more: u64,
    found: FoundInstead,
) {
    let FoundInstead::Values { one, other } = found else {
        return put_found(out, names, found);
    };
    out.put(", which is ");
    put_compared(out, relation, other.wrapping_add(more));
    out.put(", and is ");
    put_compared(out, relation, one);
}

/// Adds a number as a relation takes it: with a sign, or from 0 to 2^64 - 1.
fn put_compared(out: &mut TextWriter, relation: Relation, value: u64) {
    match relation {
        Relation::Is => out.put_value(STYLE, value),
        Relation::Above | Relation::Below => out.put_number(value),
        Relation::AboveSigned | Relation::BelowSigned => {
            let number = value.cast_signed();
            out.put(if number < 0 { "-" } else { "" });
            out.put_number(number.unsigned_abs());
        }
    }
}

/// Adds what is found instead.
fn put_found(out: &mut TextWriter, names: &ProgramNames<'_>, found: FoundInstead) {
    out.put(", and ");
    match found {
        FoundInstead::NoWord { address } => {
            out.put("the program has no word ");
            names.put_address(out, address);
        }
        FoundInstead::Sum(sum) => {
            out.put("have ");
            out.put_value(STYLE, sum);
        }
        FoundInstead::Word { value, .. }
        | FoundInstead::Values { one: value, .. }
        | FoundInstead::Register(value) => {
            out.put("is ");
            out.put_value(STYLE, value);
        }
        FoundInstead::NoStream => out.put("the program has no such stream"),
        FoundInstead::Running(stream) => {
            out.put_stream(stream.p, stream.s);
            out.put(" still runs");
        }
        FoundInstead::Stopped { stream, trap } => {
            out.put_trap(trap);
            out.put(" stopped ");
            out.put_stream(stream.p, stream.s);
        }
        FoundInstead::Idle => out.put("no trap stopped it"),
    }
}
