//! Which sentence of an exercise's advice is said, and what is wrong with a file of advice.

use crate::judging::THOROUGH;
use exercise_advice::judges::{CaseJudgement, Witness};
use exercise_advice::{
    AdviceFault, AdviceFaultKind, AdviceLine, ShownMistake, first_fitting, observations_of,
    read_advice,
};
use exercise_files::parts::{LabFault, made_by};
use image_file::Image;
use lab_requests::Maker;
use plain_text::TextWriter;
use processor::Step;
use std::alloc::{AllocError, Global};
use submission_rows::{DecidedByCase, JudgedAlone};

/// What a line of advice looks like.
const LINES: &str = "a line of advice is VERDICT: SENTENCE or VERDICT, FACT, ..: SENTENCE";

/// The sentence of the advice of a file on the mistake that a judgement shows; None if no line speaks of it.
pub(crate) fn sentence_on(
    alloc: Global,
    path: &str,
    text: &[u8],
    judged: &JudgedAlone,
) -> Result<Option<String>, LabFault> {
    match read_advice(alloc, text) {
        Ok(lines) => sentence_among(alloc, &lines, judged),
        Err(AdviceFault::NoMemory) => Err(LabFault::NoMemory),
        Err(AdviceFault::Line { number, kind, word }) => Err(line_fault(
            alloc, path, number, kind, &word,
        )?),
    }
}

/// The same, among the lines that were read.
fn sentence_among(
    alloc: Global,
    lines: &[AdviceLine],
    judged: &JudgedAlone,
) -> Result<Option<String>, LabFault> {
    let Some(decided) = &judged.decided else {
        return Ok(None);
    };
    let Some(case) = decided.judgement.deciding() else {
        return Ok(None);
    };
    let steps = steps_of(alloc, &decided.program.image, &judged.row.witness)?;
    sentence_by_run(alloc, lines, decided, case, &steps)
}

/// The same, by the steps of the run that shows the mistake.
fn sentence_by_run(
    alloc: Global,
    lines: &[AdviceLine],
    decided: &DecidedByCase,
    case: &CaseJudgement,
    steps: &[Step],
) -> Result<Option<String>, LabFault> {
    let shown = ShownMistake {
        image: &decided.program.image,
        required: &decided.required,
        judgement: case,
        steps,
    };
    let seen = observations_of(alloc, shown)?;
    match first_fitting(lines, case.kind, &seen) {
        Some(place) => sentence_at(alloc, lines, place),
        None => Ok(None),
    }
}

/// A copy of the sentence of the line at a place.
fn sentence_at(
    alloc: Global,
    lines: &[AdviceLine],
    place: usize,
) -> Result<Option<String>, LabFault> {
    match lines.get(place) {
        Some(line) => Ok(Some(String::from_str(alloc, &line.sentence)?)),
        None => Ok(None),
    }
}

/// The steps of the run that shows a verdict; none where no run does.
pub(crate) fn steps_of(
    alloc: Global,
    image: &Image,
    witness: &Witness,
) -> Result<Vec<Step>, AllocError> {
    match witness {
        Witness::None => Ok(Vec::new(alloc)),
        Witness::Schedule(steps) => Vec::from_slice(alloc, steps),
        Witness::Seed(seed) => {
            let maker = Maker::Random { seed: *seed };
            Ok(made_by(alloc, image, maker, THOROUGH.steps)?.steps)
        }
    }
}

/// What is said of a file of advice: what is wrong with its line of this number.
fn line_fault(
    alloc: Global,
    path: &str,
    number: usize,
    kind: AdviceFaultKind,
    word: &str,
) -> Result<LabFault, AllocError> {
    let mut out = TextWriter::new(alloc);
    out.put_plain(path);
    out.put(":");
    out.put_number(number as u64);
    out.put(":1: error: ");
    put_fault(&mut out, kind, word);
    out.put("\n");
    Ok(LabFault::Lines(out.take_text()?))
}

/// Adds what is wrong with a line.
fn put_fault(out: &mut TextWriter, kind: AdviceFaultKind, word: &str) {
    match kind {
        AdviceFaultKind::Bytes => out.put("the line is no UTF-8"),
        AdviceFaultKind::Sentence => out.put(LINES),
        AdviceFaultKind::Verdict => {
            out.put("no verdict on a program that runs is called ");
            out.put_plain(word);
        }
        AdviceFaultKind::Fact => {
            out.put("no fact is called ");
            out.put_plain(word);
        }
        AdviceFaultKind::Part => {
            out.put_plain(word);
            out.put(" is no part of this fact");
        }
        AdviceFaultKind::Twice => {
            out.put_plain(word);
            out.put(": the fact has such a part already");
        }
    }
}
