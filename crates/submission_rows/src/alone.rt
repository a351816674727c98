//! One submission that is judged alone: its row, and what decides it as values.

use crate::case_files::read_cases;
use crate::given_images::image_given;
use crate::judging::{Grading, judgement_on, named_cases};
use crate::rows::row_of;
use crate::submissions::{ReadSubmission, program_or_row, read_submission};
use expectation_files::{FileFault, Requirements};
use expectation_messages::parts::{Inputs, LabFault, Program};
use grade_rows::GradeRow;
use grade_rows::judges::{Case, SubmissionJudgement, required_by};
use image_file::Image;
use lab_requests::GradeRequest;
use search_texts::searches::Console;
use std::alloc::{AllocError, Global};
use std::io::{Read, Write};
use std::rt::Files;
use std::thread::Threads;
use std::time::Clock;

/// A submission that is judged alone.
#[derive(Drop)]
pub struct JudgedAlone {
    /// Its row.
    pub row: GradeRow,
    /// How many cases it was judged by; 0 if no case has a name.
    pub cases: usize,
    /// What decides; None if it is no program.
    pub decided: Option<DecidedByCase>,
}

/// What decides a verdict, as values.
#[derive(Drop)]
pub struct DecidedByCase {
    /// The program, with the words of the case that decides.
    pub program: Program,
    /// What this case requires of it; nothing if it lacks what a line names.
    pub required: Requirements,
    /// What is known of it by all cases.
    pub judgement: SubmissionJudgement,
}

/// The submission of a path, judged alone by the cases of a request, and as it asks.
pub fn judged_alone<X: Threads + Sync + Clock, F: Files, R: Read, E: Write>(
    rt: &X,
    alloc: Global,
    inputs: &mut Inputs<'_, F, R>,
    request: &GradeRequest,
    path: &str,
    console: &mut Console<'_, X, E>,
) -> Result<JudgedAlone, LabFault> {
    let cases = read_cases(alloc, inputs, request.cases)?;
    match program_at(alloc, inputs, request, path)? {
        Ok(program) => judged_by_cases(rt, alloc, request, &cases, program, console),
        Err(row) => Ok(JudgedAlone {
            row,
            cases: named_cases(&cases),
            decided: None,
        }),
    }
}

/// The program of a path, or what is said of a submission that is none.
fn program_at<F: Files, R: Read>(
    alloc: Global,
    inputs: &mut Inputs<'_, F, R>,
    request: &GradeRequest,
    path: &str,
) -> Result<Result<Program, GradeRow>, LabFault> {
    let read = read_submission(alloc, inputs, path, request.refuses_links)?;
    let ReadSubmission { bytes, link: _link } = read;
    match bytes {
        Ok(bytes) => program_or_row(alloc, bytes),
        Err(row) => Ok(Err(row)),
    }
}

/// What is said of a program that is judged alone.
fn judged_by_cases<X: Threads + Sync + Clock, E: Write>(
    rt: &X,
    alloc: Global,
    request: &GradeRequest,
    cases: &[Case],
    program: Program,
    console: &mut Console<'_, X, E>,
) -> Result<JudgedAlone, LabFault> {
    let grading = Grading::of(request, &[], cases, 1);
    let judgement = known_alone(rt, alloc, &grading, &program, console)?;
    let row = row_of(alloc, &grading, &program, &judgement)?;
    Ok(JudgedAlone {
        row,
        cases: named_cases(cases),
        decided: decided_by(alloc, cases, program, judgement)?,
    })
}

/// What is known of a program by all cases. It has no clause, so what [`judgement_on`] promises burdens no proof above it.
fn known_alone<X: Threads + Sync + Clock, E: Write>(
    rt: &X,
    alloc: Global,
    grading: &Grading<'_, '_>,
    program: &Program,
    console: &mut Console<'_, X, E>,
) -> Result<SubmissionJudgement, LabFault> {
    judgement_on(rt, alloc, grading, program, console)
}

/// What decides the judgement of a program.
fn decided_by(
    alloc: Global,
    cases: &[Case],
    program: Program,
    judgement: SubmissionJudgement,
) -> Result<Option<DecidedByCase>, AllocError> {
    let Some(case) = cases.get(judgement.worst) else {
        return Ok(None);
    };
    let given = image_given(alloc, &program, case)?;
    let Program { text, image } = program;
    let image = match given {
        Some(image) => image,
        None => image,
    };
    let required = required_for(alloc, case, &image, &text)?;
    Ok(Some(DecidedByCase {
        program: Program { text, image },
        required,
        judgement,
    }))
}

/// What a case requires of a program with its words; nothing if the program lacks what a line names.
fn required_for(
    alloc: Global,
    case: &Case,
    image: &Image,
    text: &[u8],
) -> Result<Requirements, AllocError> {
    match required_by(alloc, case, image, text) {
        Ok(required) => Ok(required),
        Err(FileFault::NoMemory) => Err(AllocError),
        Err(FileFault::Line { .. } | FileFault::Empty) => Ok(Requirements::none(alloc)),
    }
}
