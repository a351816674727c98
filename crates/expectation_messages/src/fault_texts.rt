//! What is wrong with a line of a file of expectations, in words.

use command_parts::texts::ProgramNames;
use expectation_files::{LineFaultKind, LineForm};
use image_file::Image;
use std::alloc::{AllocError, Global};

/// The words with which lines begin.
const FIRST_WORDS: &str =
    "a line begins with word, words, sum, register, finished, stopped, waits, loops, always, never, some, each, at least, entries, at most, forbid, require, points, hidden or a stream such as 0.0";

/// Which byte addresses some memory has a word at.
const ADDRESSES: &str = "no memory has a word at this address: multiples of 8 below 2097152";

/// Which numbers are values.
const NUMBERS: &str =
    "this is no number of 64 bits; one with a sign, or with signed after it, is from -9223372036854775808 to 9223372036854775807";

/// Which names operations have.
const OPERATIONS: &str =
    "no operation has this name: LOAD, STORE, FADD, ADD, JUMP and so on, with no suffix; NOP is none";

/// Why no number is below the least one, or above the greatest.
const BEYOND: &str =
    "no number is so: without a sign none is below 0, or above 18446744073709551615; write +0, or signed after the number, to compare signed";

/// Where the word `busy` stands.
const BUSY: &str =
    "busy comes after never alone, and nothing after it: never busy says that no stream can loop by its own steps alone";

/// Where the word `starved` stands.
const STARVED: &str =
    "starved comes after never alone, and nothing after it: never starved says that no stream can wait forever";

/// What the words of a fault are made of.
#[derive(Clone, Copy)]
enum FaultText {
    /// These, whatever the program.
    Fixed(&'static str),
    /// The names of data words.
    DataNames,
    /// The data words of the program.
    DataWords,
    /// Its streams.
    Streams,
    /// Its program words.
    ProgramWords,
}

/// What is wrong with a word of a line, for a program with this image and these names.
pub fn fault_words(
    alloc: Global,
    kind: LineFaultKind,
    word: &str,
    image: &Image,
    names: &ProgramNames<'_>,
) -> Result<String, AllocError> {
    words_of(alloc, kind, word, image, Some(names))
}

/// The same; without names it is not said which one may be meant.
pub(crate) fn words_of(
    alloc: Global,
    kind: LineFaultKind,
    word: &str,
    image: &Image,
    names: Option<&ProgramNames<'_>>,
) -> Result<String, AllocError> {
    match text_of(kind) {
        FaultText::Fixed(words) => String::from_str(alloc, words),
        FaultText::DataNames => match names {
            Some(names) => name_words(alloc, word, names),
            None => String::from_str(alloc, "no data word of the program has this name"),
        },
        FaultText::DataWords => missing_word(alloc, image),
        FaultText::Streams => missing_stream(alloc, image),
        FaultText::ProgramWords => missing_place(alloc, image),
    }
}

/// What the words of a fault of this kind are made of.
fn text_of(kind: LineFaultKind) -> FaultText {
    match kind {
        LineFaultKind::Name => FaultText::DataNames,
        LineFaultKind::MissingWord => FaultText::DataWords,
        LineFaultKind::MissingStream => FaultText::Streams,
        LineFaultKind::Place => FaultText::ProgramWords,
        LineFaultKind::Form(form) => FaultText::Fixed(form_words(form)),
        LineFaultKind::Unknown => FaultText::Fixed(FIRST_WORDS),
        LineFaultKind::Address => FaultText::Fixed(ADDRESSES),
        LineFaultKind::Points => FaultText::Fixed("a range is FIRST..LAST"),
        LineFaultKind::Range | LineFaultKind::PlaceRange => {
            FaultText::Fixed("the range ends before it begins")
        }
        LineFaultKind::Stream => FaultText::Fixed("a stream is P.S, P 0 to 15 and S 0 to 127"),
        LineFaultKind::Register => FaultText::Fixed("a register is r0 to r31"),
        LineFaultKind::Number => FaultText::Fixed(NUMBERS),
        LineFaultKind::Trap => FaultText::Fixed("a trap is a number from 1 to 10"),
        LineFaultKind::Count => FaultText::Fixed("this is no number"),
        LineFaultKind::Operation => FaultText::Fixed(OPERATIONS),
        LineFaultKind::Beyond => FaultText::Fixed(BEYOND),
        LineFaultKind::Busy => FaultText::Fixed(BUSY),
        LineFaultKind::Starved => FaultText::Fixed(STARVED),
        LineFaultKind::Twice => FaultText::Fixed("a stream is named twice"),
        LineFaultKind::Worth => FaultText::Fixed("a case has 0 to 1000 points"),
        LineFaultKind::Again => FaultText::Fixed("a line above says how many points the case has"),
    }
}

/// That no data word has this name, or one of the two names of a range, and which may be meant.
fn name_words(alloc: Global, word: &str, names: &ProgramNames<'_>) -> Result<String, AllocError> {
    let mut words = String::new(alloc);
    names.push_no_address(alloc, &mut words, unknown_end(word, names))?;
    Ok(words)
}

/// Of a range `FIRST..LAST` the one that is no address, the first if neither is; a text that is no range as it is.
fn unknown_end<'w>(word: &'w str, names: &ProgramNames<'_>) -> &'w str {
    match word.split_once("..") {
        Some((first, last)) if names.address_of(first).is_some() => last,
        Some((first, _)) => first,
        None => word,
    }
}

/// Which data words an image has.
fn missing_word(alloc: Global, image: &Image) -> Result<String, AllocError> {
    let last = (image.cells().len() - 1) * 8;
    format!(in alloc;
        "the program has no word at this address: its words stand at the multiples of 8 from 0 to {last}"
    )
}

/// Which streams an image has.
fn missing_stream(alloc: Global, image: &Image) -> Result<String, AllocError> {
    let p = image.processors() - 1;
    let s = image.slim() - 1;
    format!(in alloc;
        "the program has no such stream: a stream is P.S, P at most {p} and S at most {s}"
    )
}

/// Which program words an image has, and how they are named.
fn missing_place(alloc: Global, image: &Image) -> Result<String, AllocError> {
    let last = image.program().len() - 1;
    format!(in alloc;
        "the program has no such address: write a label, an address after one as label+1, or a number from 0 to {last}"
    )
}

/// The form of a line that begins so.
fn form_words(form: LineForm) -> &'static str {
    match form {
        LineForm::Word => {
            "a line about a word is word ADDRESS VALUE [full|empty], or word ADDRESS is|above|below word ADDRESS [+ NUMBER] [signed]"
        }
        LineForm::Words =>
            "a line about the words of a range is words FIRST..LAST VALUE [full|empty]",
        LineForm::Sum => "a line about a sum is sum FIRST..LAST VALUE",
        LineForm::Register => "a line about a register is register P.S rN VALUE",
        LineForm::Finished => "nothing follows finished",
        LineForm::Stopped => "a line about a trap is stopped P.S TRAP",
        LineForm::Waits =>
            "a line about a stream that may wait forever is waits P.S in FIRST..LAST",
        LineForm::Loops => "nothing follows loops",
        LineForm::Claim => {
            "after always, never or some comes word ADDRESS is VALUE, word ADDRESS above|below VALUE [signed], word ADDRESS is|above|below word ADDRESS [+ NUMBER] [signed], word ADDRESS full|empty, or at most|least N of P.S .. in FIRST..LAST[, P.S .. in FIRST..LAST]"
        }
        LineForm::Leads => {
            "a line about what leads to what is P.S in PLACES leads to P.S in PLACES, \
             or each of P.S .. in PLACES leads to PLACES, perhaps with by steps at its end"
        }
        LineForm::Overtaken => {
            "a line about overtaking is P.S in PLACES is overtaken at most N times by P.S at PLACES, N at most 1000"
        }
        LineForm::Rest => "a line about rest is P.S may rest in PLACES",
        LineForm::Entries => "a line about entries is entries N",
        LineForm::MostWords => "a line about the size of the program is at most N words",
        LineForm::Operations => "after forbid or require come names of operations",
        LineForm::Each => "a line about who writes a word is each of P.S .. writes word ADDRESS",
        LineForm::Least => {
            "a line about how many streams store is at least N streams store to words FIRST..LAST"
        }
        LineForm::Points => "a line about points is points N",
        LineForm::Hidden => "nothing follows hidden",
    }
}
