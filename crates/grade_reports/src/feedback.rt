//! What a student is given of a submission, as a text.

use crate::case_scores::{earned_points, has_all_scores, score_of, unscored_points};
use crate::cells::put_made;
use crate::command_words::put_file_word;
use crate::student_rows::row_for_student;
use grade_rows::judges::{Case, Witness};
use grade_rows::{CaseRow, GradeRow, put_turns, reason_by_case, reason_of};
use lab_requests::Undecided;
use plain_text::{TextWriter, file_name, plural};
use std::alloc::{AllocError, Global};

/// How many steps a run of `view` by a seed has at most, where nothing else is said.
const USUAL_STEPS: usize = 10_000;

/// A submission as its student knows it.
#[derive(Clone, Copy)]
pub struct StudentFile<'a> {
    /// Its path.
    pub path: &'a str,
    /// The path of its page; None if it has none.
    pub page: Option<&'a str>,
    /// How many points there are for all cases.
    pub points: u64,
    /// How a case counts that is not decided.
    pub undecided: Undecided,
    /// How many steps the run of a seed has at most.
    pub most: usize,
}

/// The text for the student of a submission, which was judged by these cases: a verdict a case, what shows it, and how to look
/// at it. Of a hidden case it has the name, the verdict and the points alone.
pub fn feedback_of(
    alloc: Global,
    file: StudentFile<'_>,
    row: &GradeRow,
    cases: &[Case],
) -> Result<String, AllocError> {
    let mut out = TextWriter::new(alloc);
    put_head(&mut out, file, row);
    put_verdicts(&mut out, file.undecided, row);
    if row.cases.is_empty() {
        out.put("All messages: mta_lab check ");
        put_file_word(&mut out, file_name(file.path));
        out.put("\n");
    }
    for (case, given) in row.cases.iter().zip(cases.iter()) {
        put_look(&mut out, file, case, given);
    }
    if let Some(page) = file.page {
        out.put("\nThe page of a run: ");
        out.put_plain(page);
        out.put("\n");
    }
    out.take_text()
}

/// Adds the first line: the name of the file, the verdict and the points.
fn put_head(out: &mut TextWriter, file: StudentFile<'_>, row: &GradeRow) {
    out.put_plain(file_name(file.path));
    out.put(": ");
    out.put(row.kind.word());
    out.put(", ");
    put_points(out, file, row);
    out.put("\n\n");
}

/// Adds the points of a submission: what it has earned of all of them, and for how many it has no score.
fn put_points(out: &mut TextWriter, file: StudentFile<'_>, row: &GradeRow) {
    let points = file.points;
    let is_scored = has_all_scores(file.undecided, &row.cases);
    let unscored = unscored_points(file.undecided, &row.cases);
    if !is_scored && unscored >= points {
        out.put("no score of ");
        put_count(out, points);
        return;
    }
    out.put_number(earned_points(file.undecided, &row.cases));
    out.put(" of ");
    put_count(out, points);
    if !is_scored {
        out.put(", no score of ");
        out.put_number(unscored);
    }
}

/// Adds how many points there are.
fn put_count(out: &mut TextWriter, points: u64) {
    out.put_number(points);
    out.put(" point");
    out.put(plural(points as usize));
}

/// Adds a line a case: its name, the verdict, the points, and why; of what is no program why it is none.
pub(crate) fn put_verdicts(out: &mut TextWriter, undecided: Undecided, row: &GradeRow) {
    if row.cases.is_empty() {
        out.put(row.kind.word());
        out.put(": ");
        put_made(out, reason_of(out.alloc(), row, 0));
        out.put("\n");
        return;
    }
    for case in row.cases.iter() {
        put_verdict(out, undecided, case);
    }
}

/// Adds the line of a case.
fn put_verdict(out: &mut TextWriter, undecided: Undecided, case: &CaseRow) {
    let student = row_for_student(case);
    if let Some(name) = &case.name {
        out.put("case ");
        out.put_plain(name);
        out.put(": ");
    }
    out.put(student.kind.word());
    put_score(
        out,
        score_of(undecided, student.kind, student.points),
        student.points,
    );
    match student.shown {
        Some(shown) => {
            out.put(": ");
            put_made(out, reason_by_case(out.alloc(), shown));
            out.put("\n");
        }
        None => out.put(" (a hidden case)\n"),
    }
}

/// Adds the score by a case with so many points.
fn put_score(out: &mut TextWriter, score: Option<u32>, points: u32) {
    match score {
        Some(score) => {
            out.put(", ");
            out.put_number(u64::from(score));
            out.put(" of ");
        }
        None => out.put(", no score of "),
    }
    out.put_number(u64::from(points));
}

/// Adds how to look at the run that shows what is wrong by a case, where students see it.
fn put_look(out: &mut TextWriter, file: StudentFile<'_>, case: &CaseRow, given: &Case) {
    let Some(shown) = row_for_student(case).shown else {
        return;
    };
    if matches!(&shown.witness, Witness::None) {
        return;
    }
    out.put("\nTo see this run");
    if let Some(case) = &shown.name {
        out.put(" of case ");
        out.put_plain(case);
    }
    out.put(":\n");
    if given.cells.is_some() {
        out.put(
            "- give your words these values, by their names or from the first one on; others stay:\n",
        );
        put_cells(out, &given.given);
    }
    put_view(out, file, &shown.witness);
}

/// Adds the call of `view` that makes a run.
fn put_view(out: &mut TextWriter, file: StudentFile<'_>, witness: &Witness) {
    let name = file_name(file.path);
    match witness {
        Witness::None => {}
        Witness::Seed(seed) => {
            out.put("- mta_lab view ");
            put_file_word(out, name);
            out.put(" --seed ");
            out.put_number(*seed);
            put_steps(out, file.most);
            out.put("\n");
        }
        Witness::Schedule(steps) => {
            out.put("- write these lines into run.schedule:\n    ");
            put_turns(out, steps, "\n    ");
            out.put("\n- mta_lab view ");
            put_file_word(out, name);
            out.put(" run.schedule\n");
        }
    }
}

/// Adds how many steps a run has at most, where that is not what `view` takes.
fn put_steps(out: &mut TextWriter, most: usize) {
    if most != USUAL_STEPS {
        out.put(" --steps ");
        out.put_number(most as u64);
    }
}

/// Adds the lines of a case's cells; what is no UTF-8 there is left out.
fn put_cells(out: &mut TextWriter, text: &[u8]) {
    match String::from_utf8_lossy(out.alloc(), text) {
        Ok(text) => {
            for line in text.lines() {
                out.put("    ");
                out.put_plain(line);
                out.put("\n");
            }
        }
        Err(_) => out.lack_piece(),
    }
}
