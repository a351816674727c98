//! What the end of a run has to be, read from its text and judged of machines.
use crate::sources::image_of;
use expectation_files::{
    FileFault, KnownNames, LineFault, LineFaultKind, LineForm, Requirements, read_requirements,
};
use expectations::{Expectation, first_missed};
use image_file::Image;
use machine::Machine;
use std::alloc::Global;

/// Stores 5, and then is past the program's end, which is trap 1.
const STOPPING: &str = ".slim 1\n.entry 0\nLIT r1, 5\nSTORE.N r1, r0, 0\n.data 0\n.data 7, 0\n";

const QUITTING: &str = ".slim 1\n.entry 0\nLIT r1, 5\nQUIT\n.data 0xFFFFFFFFFFFFFFFF\n";

/// Two words whose sum is 2^64 + 1.
const HUGE: &str = ".slim 1\n.entry 0\nQUIT\n.data 0x8000000000000000\n.data 0x8000000000000001\n";

/// A source, how many steps are taken, a text of expectations, and which of them is the first that is not met.
type Row = (&'static str, usize, &'static str, Option<usize>);

/// A text, the line of its fault, the word there, from 0, and what is wrong with it.
pub(crate) type FaultRow = (&'static str, usize, usize, LineFaultKind);

const ROWS: [Row; 30] = [
    (
        STOPPING,
        3,
        "word 0 5\nword 0x8 7 empty\nregister 0.0 r1 5\nstopped 0.0 1",
        None,
    ),
    (STOPPING, 3, "word 0 5 full\nword 8 7 full\n", Some(1)),
    (STOPPING, 3, "word 16 0", Some(0)),
    (STOPPING, 3, "word 0 0x5\nword 0 6", Some(1)),
    (
        STOPPING,
        3,
        "register 0.0 r01 5\nregister 0.1 r1 0",
        Some(1),
    ),
    (STOPPING, 3, "register 1.0 r1 0", Some(0)),
    (STOPPING, 3, "stopped 0.0 2", Some(0)),
    (STOPPING, 3, "finished", Some(0)),
    (STOPPING, 1, "register 0.0 r1 5\nstopped 0.0 1", Some(1)),
    (QUITTING, 1, "# it runs\nfinished", Some(0)),
    (QUITTING, 2, "stopped 0.0 1", Some(0)),
    (
        QUITTING,
        2,
        "finished # quit\r\n\r\n\tword\t0 -1 full\nregister 0.0 r1 0\n",
        None,
    ),
    (
        STOPPING,
        3,
        "words 0..0 5 full\nwords 0x8..8 7 empty\nsum 0..8 12\nsum 8..8 7",
        None,
    ),
    (STOPPING, 3, "words 0..8 5", Some(0)),
    (STOPPING, 3, "words 8..8 7\nwords 8..8 7 full", Some(1)),
    (STOPPING, 3, "words 0..16 5", Some(0)),
    (STOPPING, 3, "words 16..16 0", Some(0)),
    (STOPPING, 3, "sum 0..8 13", Some(0)),
    (STOPPING, 3, "sum 0..16 12", Some(0)),
    (STOPPING, 3, "sum 0..2097144 12", Some(0)),
    (
        STOPPING,
        3,
        "word 8 above word 0\nword 0 below word 8\nword 8 is word 0 + 2\nword 0 is word 8 + -2",
        None,
    ),
    (STOPPING, 3, "word 0 above word 8 + -8 signed", None),
    (STOPPING, 3, "word 0 above word 8 + -8", Some(0)),
    (STOPPING, 3, "word 0 above word 0", Some(0)),
    (STOPPING, 3, "word 0 is word 0\nword 0 is word 16", Some(1)),
    (STOPPING, 3, "word 16 is word 16", Some(0)),
    (
        QUITTING,
        2,
        "word 0 above word 0 + 1\nword 0 below word 0 + 1 signed\nword 0 below word 0 + 1",
        Some(2),
    ),
    (HUGE, 1, "sum 0..8 1\nword 8 is word 0 + 1", None),
    (QUITTING, 1, "waits 0.0 in 0..0\nloops\nfinished", Some(2)),
    (STOPPING, 1, "waits 0.0 in 1..1", None),
];

/// Texts for the program `QUITTING`.
const FAULTS: [FaultRow; 80] = [
    (
        "finished\nword 8",
        2,
        0,
        LineFaultKind::Form(LineForm::Word),
    ),
    ("\n\nfinish\nword 4 0", 3, 0, LineFaultKind::Unknown),
    (
        "finished now",
        1,
        0,
        LineFaultKind::Form(LineForm::Finished),
    ),
    ("word 8 1 fill", 1, 3, LineFaultKind::Form(LineForm::Word)),
    (
        "word 8 1 full full",
        1,
        3,
        LineFaultKind::Form(LineForm::Word),
    ),
    ("waits 16.0 in 0..1", 1, 1, LineFaultKind::Stream),
    ("waits 1.0 in 0..1", 1, 1, LineFaultKind::MissingStream),
    ("waits 0.1 in 0..1", 1, 1, LineFaultKind::MissingStream),
    ("waits 0.0 in 0", 1, 3, LineFaultKind::Points),
    ("waits 0.0 in 1..0", 1, 3, LineFaultKind::PlaceRange),
    ("waits 0.0 in 0..2", 1, 3, LineFaultKind::Place),
    ("waits 0.0 in go..go", 1, 3, LineFaultKind::Place),
    (
        "waits 0.0 at 0..1",
        1,
        2,
        LineFaultKind::Form(LineForm::Waits),
    ),
    ("waits 0.0", 1, 0, LineFaultKind::Form(LineForm::Waits)),
    (
        "waits 0.0 in 0..1 1",
        1,
        0,
        LineFaultKind::Form(LineForm::Waits),
    ),
    ("0.0 in 0", 1, 0, LineFaultKind::Unknown),
    ("loops 1", 1, 0, LineFaultKind::Form(LineForm::Loops)),
    ("points 1001", 1, 1, LineFaultKind::Worth),
    ("points -1", 1, 1, LineFaultKind::Worth),
    ("points 0x10", 1, 1, LineFaultKind::Worth),
    ("points", 1, 0, LineFaultKind::Form(LineForm::Points)),
    ("points 1 2", 1, 0, LineFaultKind::Form(LineForm::Points)),
    ("hidden 1", 1, 0, LineFaultKind::Form(LineForm::Hidden)),
    (
        "points 3\nhidden\nfinished\npoints 3",
        4,
        0,
        LineFaultKind::Again,
    ),
    ("points 3\npoints 1001", 2, 1, LineFaultKind::Worth),
    ("points 3\npoint 3\npoints 3", 2, 0, LineFaultKind::Unknown),
    ("word 4 x", 1, 1, LineFaultKind::Address),
    ("word 2097152 0", 1, 1, LineFaultKind::Address),
    ("word -8 0", 1, 1, LineFaultKind::Address),
    ("word [4] 0", 1, 1, LineFaultKind::Address),
    ("word total 0", 1, 1, LineFaultKind::Name),
    ("word [total+1] 0", 1, 1, LineFaultKind::Name),
    ("register 16.0 r1 0", 1, 1, LineFaultKind::Stream),
    ("register 0.128 r1 0", 1, 1, LineFaultKind::Stream),
    ("register 0 r1 0", 1, 1, LineFaultKind::Stream),
    ("register 0.0 r32 0", 1, 2, LineFaultKind::Register),
    ("word 8 0x10000000000000000", 1, 2, LineFaultKind::Number),
    ("word 8 -0x8000000000000001", 1, 2, LineFaultKind::Number),
    ("stopped 0.0 0", 1, 2, LineFaultKind::Trap),
    ("stopped 15.127 11", 1, 2, LineFaultKind::Trap),
    ("words 8..0 1", 1, 1, LineFaultKind::Range),
    ("words 8 1", 1, 1, LineFaultKind::Points),
    ("words 0.8 1", 1, 1, LineFaultKind::Points),
    (
        "words 0..8 1 fill",
        1,
        3,
        LineFaultKind::Form(LineForm::Words),
    ),
    (
        "words 0..8 1 full full",
        1,
        0,
        LineFaultKind::Form(LineForm::Words),
    ),
    ("words 4..8 1", 1, 1, LineFaultKind::Address),
    ("words 0..2097152 1", 1, 1, LineFaultKind::Address),
    ("words 0...8 1", 1, 1, LineFaultKind::Points),
    ("words 0.. 1", 1, 1, LineFaultKind::Address),
    ("words 0..8 x", 1, 2, LineFaultKind::Number),
    ("sum 0..8", 1, 0, LineFaultKind::Form(LineForm::Sum)),
    ("sum 0..8 1 full", 1, 0, LineFaultKind::Form(LineForm::Sum)),
    ("sum 8..0 x", 1, 1, LineFaultKind::Range),
    ("word 0 is word", 1, 3, LineFaultKind::Form(LineForm::Word)),
    (
        "word 0 over word 8",
        1,
        2,
        LineFaultKind::Form(LineForm::Word),
    ),
    (
        "word 0 is word 8 signed",
        1,
        2,
        LineFaultKind::Form(LineForm::Word),
    ),
    (
        "word 0 is word 8 + 1 2",
        1,
        7,
        LineFaultKind::Form(LineForm::Word),
    ),
    (
        "word 0 below word 8 1 +",
        1,
        5,
        LineFaultKind::Form(LineForm::Word),
    ),
    ("word 0 is word 3 + x", 1, 4, LineFaultKind::Address),
    ("word 0 is word 8 + x", 1, 6, LineFaultKind::Number),
    (
        "always word 0 is",
        1,
        3,
        LineFaultKind::Form(LineForm::Claim),
    ),
    ("never word 8 is 1", 1, 2, LineFaultKind::MissingWord),
    (
        "always word 0 above 18446744073709551615",
        1,
        4,
        LineFaultKind::Beyond,
    ),
    ("never word 0 below 0", 1, 4, LineFaultKind::Beyond),
    ("some word 0 is +-5", 1, 4, LineFaultKind::Number),
    (
        "always word 0 above 9223372036854775808 signed",
        1,
        4,
        LineFaultKind::Number,
    ),
    (
        "always at most 1 of 0.0 0.0 in 0..1",
        1,
        6,
        LineFaultKind::Twice,
    ),
    (
        "always at most 1 of 0.1 in 0..1",
        1,
        5,
        LineFaultKind::MissingStream,
    ),
    (
        "always at most 1 of 0.0 in 0..9",
        1,
        7,
        LineFaultKind::Place,
    ),
    (
        "always at most 1 of 0.0 in 1..0",
        1,
        7,
        LineFaultKind::PlaceRange,
    ),
    (
        "always at most x of 0.0 in 0..1",
        1,
        3,
        LineFaultKind::Count,
    ),
    ("some busy", 1, 1, LineFaultKind::Busy),
    ("never busy 3", 1, 1, LineFaultKind::Busy),
    ("always starved", 1, 1, LineFaultKind::Starved),
    ("never starved 3", 1, 1, LineFaultKind::Starved),
    ("entries x", 1, 1, LineFaultKind::Count),
    ("entries", 1, 0, LineFaultKind::Form(LineForm::Entries)),
    (
        "at most 5 word",
        1,
        3,
        LineFaultKind::Form(LineForm::MostWords),
    ),
    ("forbid FADD NOP", 1, 2, LineFaultKind::Operation),
    ("require", 1, 0, LineFaultKind::Form(LineForm::Operations)),
];

/// Texts that say nothing.
const EMPTY: [&str; 2] = ["", "# finished\n \t\r\n; finished"];

/// The machine of an image after so many steps of its only stream.
fn machine_after(alloc: Global, image: &Image, steps: usize) -> Option<Machine<8>> {
    let mut machine = Machine::load(alloc, image).ok()?;
    for _step in 0..steps {
        machine.step(0, 0);
    }
    Some(machine)
}

/// What a text requires of a program, by addresses alone.
pub(crate) fn required_by(
    alloc: Global,
    image: &Image,
    text: &str,
) -> Result<Requirements, FileFault> {
    let known = KnownNames {
        words: &[],
        labels: &[],
    };
    read_requirements(alloc, known, image, text.as_bytes())
}

/// The first that is missed; none where something has a fault.
fn missed(alloc: Global, source: &str, steps: usize, text: &str) -> Option<Option<usize>> {
    let image = image_of(alloc, source)?;
    let machine = machine_after(alloc, &image, steps)?;
    let required = required_by(alloc, &image, text).ok()?;
    Some(first_missed(&machine, required.ends()))
}

/// The first of the rows that is judged otherwise.
fn first_misjudged(alloc: Global, rows: &[Row]) -> Option<usize> {
    for (number, (source, steps, text, first)) in rows.iter().enumerate() {
        if missed(alloc, source, *steps, text) != Some(*first) {
            return Some(number);
        }
    }
    None
}

#[test]
fn are_judged(rt: HostRuntime) {
    assert!(rt; first_misjudged(rt.alloc(), &ROWS).is_none());
}

/// The fault of a text for a program.
fn fault_of(alloc: Global, source: &str, text: &str) -> Option<FileFault> {
    let image = image_of(alloc, source)?;
    required_by(alloc, &image, text).err()
}

/// The first of the texts that has another fault.
pub(crate) fn first_with_another(
    alloc: Global,
    source: &str,
    faults: &[FaultRow],
) -> Option<usize> {
    for (number, (text, line, word, kind)) in faults.iter().enumerate() {
        let fault = LineFault {
            word: *word,
            kind: *kind,
        };
        let wanted = FileFault::Line { line: *line, fault };
        if fault_of(alloc, source, text) != Some(wanted) {
            return Some(number);
        }
    }
    None
}

#[test]
fn have_faults(rt: HostRuntime) {
    assert!(rt; first_with_another(rt.alloc(), QUITTING, &FAULTS).is_none());
}

#[test]
fn say_nothing(rt: HostRuntime) {
    for text in EMPTY {
        assert!(rt; fault_of(rt.alloc(), QUITTING, text) == Some(FileFault::Empty));
    }
}

/// The least and the greatest number are the same bits as others.
#[test]
fn are_numbers_of_64_bits(rt: HostRuntime) {
    let text = "word 0 -9223372036854775808\nregister 15.127 r31 0xFFFFFFFFFFFFFFFF";
    let expected = [
        Expectation::Word {
            address: 0,
            value: 0x8000_0000_0000_0000,
            state: None,
        },
        Expectation::Register {
            p: 15,
            s: 127,
            number: 31,
            value: u64::MAX,
        },
    ];
    let image = image_of(rt.alloc(), QUITTING);
    let found = image.and_then(|image| required_by(rt.alloc(), &image, text).ok());
    assert!(rt; matches!(&found, Some(found) if found.ends() == expected.as_slice()));
}
