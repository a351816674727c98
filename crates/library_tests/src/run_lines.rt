//! Lines about the runs of a program, read from their text.
use crate::expected_ends::{FaultRow, first_with_another, required_by};
use crate::sources::image_of;
use expectation_files::{LineFaultKind, LineForm, Requirements};
use std::alloc::Global;

/// Two streams of one processor, and two program words.
const TWO_STREAMS: &str = ".slim 2\n.entry 0\nLIT r1, 5\nQUIT\n.data 0\n";

/// Lines about what leads to what.
const LEADING: [FaultRow; 14] = [
    (
        "0.0 in 0 leads to 0.0",
        1,
        0,
        LineFaultKind::Form(LineForm::Leads),
    ),
    (
        "0.0 at 0 leads to 0.0 in 1",
        1,
        0,
        LineFaultKind::Form(LineForm::Leads),
    ),
    (
        "0.0 in 0 leads to 0.0 in 1 2",
        1,
        0,
        LineFaultKind::Form(LineForm::Leads),
    ),
    ("16.0 in 0 leads to 0.0 in 1", 1, 0, LineFaultKind::Stream),
    (
        "0.0 in 0 leads to 1.0 in 1",
        1,
        5,
        LineFaultKind::MissingStream,
    ),
    ("0.0 in 0..2 leads to 0.0 in 1", 1, 2, LineFaultKind::Place),
    ("0.0 in 0 leads to 0.0 in go", 1, 7, LineFaultKind::Place),
    (
        "0.0 in 0 leads to 0.0 in 1..0",
        1,
        7,
        LineFaultKind::PlaceRange,
    ),
    ("0.0 in 0.1 leads to 0.0 in 1", 1, 2, LineFaultKind::Points),
    (
        "each of 0.0 0.0 in 0 leads to 1",
        1,
        3,
        LineFaultKind::Twice,
    ),
    ("each of 0.0 in 2 leads to 1", 1, 4, LineFaultKind::Place),
    ("each of 0.0 in 0 leads to 2", 1, 7, LineFaultKind::Place),
    (
        "each of in 0 leads to 1",
        1,
        0,
        LineFaultKind::Form(LineForm::Leads),
    ),
    (
        "each of 0.0 in 0 leads to",
        1,
        0,
        LineFaultKind::Form(LineForm::Leads),
    ),
];

/// Lines about overtaking.
const OVERTAKING: [FaultRow; 21] = [
    (
        "0.0 in 0 is overtaken at most 1 times by 0.1",
        1,
        0,
        LineFaultKind::Form(LineForm::Overtaken),
    ),
    (
        "0.0 in 0 is overtaken at most 1 times by 0.1 at 1 2",
        1,
        0,
        LineFaultKind::Form(LineForm::Overtaken),
    ),
    (
        "0.0 at 0 is overtaken at most 1 times by 0.1 at 1",
        1,
        0,
        LineFaultKind::Form(LineForm::Overtaken),
    ),
    (
        "0.0 in 0 is overtaken at least 1 times by 0.1 at 1",
        1,
        0,
        LineFaultKind::Form(LineForm::Overtaken),
    ),
    (
        "0.0 in 0 is overtaken at most 1 turns by 0.1 at 1",
        1,
        0,
        LineFaultKind::Form(LineForm::Overtaken),
    ),
    (
        "0.0 in 0 is overtaken at most 1 time by 0.1 in 1",
        1,
        0,
        LineFaultKind::Form(LineForm::Overtaken),
    ),
    (
        "each of 0.0 in 0 is overtaken at most 1 time by 0.1 at 1",
        1,
        0,
        LineFaultKind::Form(LineForm::Overtaken),
    ),
    (
        "16.0 in 0 is overtaken at most 1 times by 0.1 at 1",
        1,
        0,
        LineFaultKind::Stream,
    ),
    (
        "1.0 in 0 is overtaken at most 1 times by 0.1 at 1",
        1,
        0,
        LineFaultKind::MissingStream,
    ),
    (
        "0.0 in 0..2 is overtaken at most x times by 0.1 at 1",
        1,
        2,
        LineFaultKind::Place,
    ),
    (
        "0.0 in 1..0 is overtaken at most 1 times by 0.1 at 1",
        1,
        2,
        LineFaultKind::PlaceRange,
    ),
    (
        "0.0 in 0 is overtaken at most x times by 0.1 at 1",
        1,
        7,
        LineFaultKind::Count,
    ),
    (
        "0.0 in 0 is overtaken at most 0x1 times by 0.1 at 1",
        1,
        7,
        LineFaultKind::Count,
    ),
    (
        "0.0 in 0 is overtaken at most 1001 times by 0.128 at 1",
        1,
        7,
        LineFaultKind::Form(LineForm::Overtaken),
    ),
    (
        "0.0 in 0 is overtaken at most 1 times by 0.128 at 1",
        1,
        10,
        LineFaultKind::Stream,
    ),
    (
        "0.0 in 0 is overtaken at most 1 times by 0.2 at 1",
        1,
        10,
        LineFaultKind::MissingStream,
    ),
    (
        "0.0 in 0 is overtaken at most 1 times by 0.0 at go",
        1,
        10,
        LineFaultKind::Twice,
    ),
    (
        "0.0 in 0 is overtaken at most 1 times by 0.1 at go",
        1,
        12,
        LineFaultKind::Place,
    ),
    (
        "0.0 in 0 is overtaken at most 1 times by 0.1 at 0.1",
        1,
        12,
        LineFaultKind::Points,
    ),
    (
        "0.0 in 0 is overtaken at most 1 times by 0.1 at 1..0",
        1,
        12,
        LineFaultKind::PlaceRange,
    ),
    (
        "0.0 in 0 overtaken at most 1 times by 0.1 at 1",
        1,
        0,
        LineFaultKind::Unknown,
    ),
];

/// Lines about overtaking without a fault.
const READ: [&str; 3] = [
    "0.0 in 0 is overtaken at most 1 time by 0.1 at 1",
    "0.0 in 0..1 is overtaken at most 0 times by 0.1 at 0..1",
    "0.1 in 1 is overtaken at most 1000 times by 0.0 at 1",
];

/// Lines about streams that may rest.
const RESTING: [FaultRow; 9] = [
    ("0.0 may rest in", 1, 0, LineFaultKind::Form(LineForm::Rest)),
    (
        "0.0 may rest at 0",
        1,
        0,
        LineFaultKind::Form(LineForm::Rest),
    ),
    (
        "0.0 may wait in 0",
        1,
        0,
        LineFaultKind::Form(LineForm::Rest),
    ),
    (
        "0.0 may rest in 0 1",
        1,
        0,
        LineFaultKind::Form(LineForm::Rest),
    ),
    ("16.0 may rest in 0", 1, 0, LineFaultKind::Stream),
    ("1.0 may rest in 0", 1, 0, LineFaultKind::MissingStream),
    ("0.0 may rest in 0..2", 1, 4, LineFaultKind::Place),
    ("0.0 may rest in go", 1, 4, LineFaultKind::Place),
    ("0.0 may rest in 1..0", 1, 4, LineFaultKind::PlaceRange),
];

/// What a text requires of `TWO_STREAMS`.
fn required(alloc: Global, text: &str) -> Option<Requirements> {
    let image = image_of(alloc, TWO_STREAMS)?;
    required_by(alloc, &image, text).ok()
}

/// Whether a text of one line says one condition on runs, with its number and its words.
fn is_one_condition(alloc: Global, text: &str) -> bool {
    let Some(required) = required(alloc, text) else {
        return false;
    };
    let is_one = required.run_conditions().len() == 1;
    match required.condition_lines() {
        [line] => is_one && line.number == 1 && line.words.as_str() == text,
        _ => false,
    }
}

#[test]
fn what_leads_to_what_has_faults(rt: HostRuntime) {
    assert!(rt; first_with_another(rt.alloc(), TWO_STREAMS, &LEADING).is_none());
}

#[test]
fn overtaking_has_faults(rt: HostRuntime) {
    assert!(rt; first_with_another(rt.alloc(), TWO_STREAMS, &OVERTAKING).is_none());
}

#[test]
fn overtaking_is_read(rt: HostRuntime) {
    for text in READ {
        assert!(rt; is_one_condition(rt.alloc(), text));
    }
}

#[test]
fn rest_has_faults(rt: HostRuntime) {
    assert!(rt; first_with_another(rt.alloc(), TWO_STREAMS, &RESTING).is_none());
}

#[test]
fn rests_are_read_in_their_order(rt: HostRuntime) {
    let text = "0.0 may rest in 0\n0.1 may rest in 0..1\n0.0 may rest in 1\n";
    match required(rt.alloc(), text) {
        Some(required) => match required.rests() {
            [first, second, third] => {
                assert!(rt; (first.who.p, first.who.s) == (0, 0));
                assert!(rt; (second.who.p, second.who.s) == (0, 1));
                assert!(rt; (third.who.p, third.who.s) == (0, 0));
                assert!(rt; required.run_conditions().is_empty());
            }
            _ => assert!(rt; false),
        },
        None => assert!(rt; false),
    }
}
