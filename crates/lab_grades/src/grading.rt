//! The command `grade`.

use crate::class_flow::ClassFlow;
use crate::class_stages::Desk;
use crate::grade_notes::GradeNotes;
use crate::kept_results::KeptResults;
use crate::option_sums::{cases_sum, options_sum};
use crate::page_folder::{PageFolder, reserve_all};
use crate::progress::Progress;
use crate::side_by_side::{jobs_of, judge_class};
use crate::student_folders::note_several;
use class_results::{ClassPart, class_of, judged_in};
use lab_requests::{GradeFormat, GradeRequest};
use printed_lines::Printer;
use program_pages::searches::Console;
use result_lines::ClassHead;
use result_lines::reports::{GradeRow, ReportForm, ReportedRow, report_of, worst_status};
use std::alloc::{AllocError, Global};
use std::io::{Read, Write};
use std::rt::Files;
use std::sync::Wait;
use std::thread::Threads;
use std::time::Clock;
use submission_rows::parts::{CommandAnswer, Inputs, LabFault};
use submission_rows::{Grading, read_cases};

/// The submissions of a call.
#[derive(Drop)]
struct Submissions<'r> {
    /// Those of the whole class.
    class: Vec<&'r str>,
    /// The part that is judged; None: all.
    part: Option<ClassPart>,
    /// The paths of those that are judged, in the order of their rows.
    judged: Vec<&'r str>,
}

/// Judges submissions, each by the same cases, and reports it as is asked for: the rows of formats that have a line a
/// submission are printed as they come.
pub fn grade<X: Threads + Wait + Sync + Clock, F: Files, R: Read, W: Write, E: Write>(
    rt: &X,
    alloc: Global,
    inputs: &mut Inputs<'_, F, R>,
    request: &GradeRequest,
    printer: &mut Printer<'_, W>,
    console: &mut Console<'_, X, E>,
) -> Result<CommandAnswer, LabFault> {
    let Submissions {
        class,
        part,
        judged,
    } = submissions_of(alloc, request)?;
    let cases = read_cases(alloc, inputs, request.cases)?;
    let mut pages = PageFolder::open(alloc, inputs, request, &class, part)?;
    note_rows(alloc, &mut pages.notes.lines, request.format, &judged)?;
    let jobs = jobs_of(rt, request, judged.len());
    let grading = Grading::of(request, &judged, &cases, jobs);
    let kept = match request.results {
        Some(path) => {
            reserve_all(alloc, inputs, &class)?;
            let head = head_for(alloc, &grading, &class)?;
            let notes = &mut pages.notes.lines;
            Some(KeptResults::open(rt, alloc, inputs, path, head, notes)?)
        }
        None => None,
    };
    let progress = Progress::begin(console);
    let mut flow = ClassFlow::new(alloc, &grading, pages, kept, progress);
    let mut desk = Desk {
        inputs,
        printer,
        console,
    };
    judge_class(rt, alloc, &grading, &mut flow, &mut desk)?;
    answer_of(alloc, &grading, flow)
}

/// Notes what the rows of a format do not say by themselves.
pub(crate) fn note_rows(
    alloc: Global,
    notes: &mut String,
    format: GradeFormat,
    submissions: &[&str],
) -> Result<(), AllocError> {
    match format {
        GradeFormat::Moodle => note_several(alloc, notes, submissions),
        GradeFormat::Text
        | GradeFormat::Tsv
        | GradeFormat::Json
        | GradeFormat::Junit
        | GradeFormat::Gradescope => Ok(()),
    }
}

/// What is left to be said when each submission has its row.
fn answer_of<T: Drop>(
    alloc: Global,
    grading: &Grading<'_, '_>,
    flow: ClassFlow<'_, '_, '_, T>,
) -> Result<CommandAnswer, LabFault> {
    let output = whole_report(alloc, grading.form, grading.submissions, &flow.rows)?;
    let status = worst_status(&flow.rows);
    let PageFolder { notes, fault, .. } = flow.pages;
    let GradeNotes { lines, .. } = notes;
    Ok(CommandAnswer {
        output,
        errors: lines,
        status,
        fault,
    })
}

/// What is written after the rows of submissions.
pub(crate) fn whole_report(
    alloc: Global,
    form: ReportForm,
    submissions: &[&str],
    rows: &[GradeRow],
) -> Result<String, AllocError> {
    let mut reported = Vec::new(alloc);
    for (path, row) in submissions.iter().zip(rows.iter()) {
        reported.push(ReportedRow {
            submission: *path,
            row,
            form,
        })?;
    }
    report_of(alloc, form, &reported)
}

/// The submissions of a call: as they are named, and where a part of them is judged or results are kept, sorted and
/// each once.
fn submissions_of<'r>(
    alloc: Global,
    request: &GradeRequest<'r>,
) -> Result<Submissions<'r>, LabFault> {
    let part = match request.part {
        Some(text) => Some(part_in(alloc, text)?),
        None => None,
    };
    let class = if part.is_some() || request.results.is_some() {
        class_of(alloc, &request.submissions)?
    } else {
        Vec::from_slice(alloc, &request.submissions)?
    };
    let judged = judged_in(alloc, part, &class)?;
    Ok(Submissions {
        class,
        part,
        judged,
    })
}

/// The part of these words.
fn part_in(alloc: Global, text: &str) -> Result<ClassPart, LabFault> {
    match ClassPart::of_text(text) {
        Some(part) => Ok(part),
        None => Err(LabFault::Words(format!(in alloc;
            "--part {text}: a part is I/N, as 2/8, with I from 1 to N, and N at most 1000000"
        )?)),
    }
}

/// What a file of results says of this call.
fn head_for(
    alloc: Global,
    grading: &Grading<'_, '_>,
    class: &[&str],
) -> Result<ClassHead, AllocError> {
    let options = options_sum(alloc, grading.request.version, grading)?;
    let cases = cases_sum(alloc, grading.cases)?;
    let mut head = ClassHead {
        version: String::new(alloc),
        part: None,
        options,
        cases,
        named_cases: grading.form.named,
        points: grading.form.points,
        submissions: Vec::new(alloc),
    };
    add_texts(alloc, grading.request, class, &mut head)?;
    Ok(head)
}

/// Adds the version, the part, and the paths of a class.
fn add_texts(
    alloc: Global,
    request: &GradeRequest,
    class: &[&str],
    head: &mut ClassHead,
) -> Result<(), AllocError> {
    head.version.push_str(request.version)?;
    if let Some(part) = request.part {
        head.part = Some(String::from_str(alloc, part)?);
    }
    for path in class {
        head.submissions.push(String::from_str(alloc, path)?)?;
    }
    Ok(())
}
