//! What is said of the program of an exercise, in words.

use crate::judging::is_source_fault;
use crate::missed_words::put_verdict_words;
use exercise_advice::judges::Witness;
use exercise_files::Exercise;
use lab_requests::ExerciseRequest;
use plain_text::TextWriter;
use processor::Step;
use schedule_turns::{Turn, turns_of};
use std::alloc::{AllocError, Global};
use submission_rows::JudgedAlone;
use submission_rows::reports::GradeRow;

/// Where exercises are, where nothing else is said.
const USUAL_FOLDER: &str = "exercises";

/// Adds what is said of a program: the verdict, what shows it or what was looked at, the sentence on it, and commands that
/// show the run.
pub(crate) fn put_judgement(
    alloc: Global,
    out: &mut TextWriter,
    request: &ExerciseRequest,
    exercise: &Exercise,
    judged: &JudgedAlone,
    sentence: Option<&String>,
) -> Result<(), AllocError> {
    put_head(out, exercise, judged.row.kind.word());
    put_verdict_words(alloc, out, judged)?;
    out.put("\n");
    if let Some(sentence) = sentence {
        out.put_plain(sentence);
        out.put("\n");
    }
    if is_source_fault(&judged.row) {
        out.put("All messages: mta_lab check ");
        put_start(out, exercise);
        out.put("\n");
    }
    put_commands(alloc, out, request, exercise, &judged.row)
}

/// Adds which exercise it is and what its program is, and the name of the file that more is said of.
fn put_head(out: &mut TextWriter, exercise: &Exercise, verdict: &str) {
    out.put("exercise ");
    out.put_number(exercise.number as u64);
    out.put(", ");
    out.put(&exercise.title);
    out.put(": ");
    out.put(verdict);
    out.put("\n");
    put_start(out, exercise);
    out.put(": ");
}

/// Adds the path of the program of an exercise.
fn put_start(out: &mut TextWriter, exercise: &Exercise) {
    out.put_plain(&exercise.path);
    out.put("/start.asm");
}

/// Adds commands that show the run by which a program is not right, if there is one.
fn put_commands(
    alloc: Global,
    out: &mut TextWriter,
    request: &ExerciseRequest,
    exercise: &Exercise,
    row: &GradeRow,
) -> Result<(), AllocError> {
    match &row.witness {
        Witness::None => return Ok(()),
        Witness::Schedule(steps) if steps.is_empty() => return Ok(()),
        Witness::Schedule(steps) => put_view_of_turns(alloc, out, exercise, row, steps)?,
        Witness::Seed(seed) => {
            put_view(out, exercise);
            out.put(" --seed ");
            out.put_number(*seed);
            put_words(out, exercise, row);
        }
    }
    put_pages(out, request, exercise);
    Ok(())
}

/// Adds the begin of a command that shows a run.
fn put_view(out: &mut TextWriter, exercise: &Exercise) {
    out.put("To look at this run:\n  mta_lab view ");
    put_start(out, exercise);
}

/// Adds commands that write a schedule into a file, and show its run.
fn put_view_of_turns(
    alloc: Global,
    out: &mut TextWriter,
    exercise: &Exercise,
    row: &GradeRow,
    steps: &[Step],
) -> Result<(), AllocError> {
    let turns = turns_of(alloc, steps)?;
    out.put("To look at this run:\n  printf '");
    put_turns(out, turns.as_slice());
    out.put("' > found.schedule\n  mta_lab view ");
    put_start(out, exercise);
    out.put(" found.schedule");
    put_words(out, exercise, row);
    Ok(())
}

/// Adds turns as `printf` takes the lines of a schedule.
fn put_turns(out: &mut TextWriter, turns: &[Turn]) {
    for turn in turns {
        out.put_number(u64::from(turn.stream.p));
        out.put(" ");
        out.put_number(u64::from(turn.stream.s));
        out.put(" ");
        out.put_number(turn.count as u64);
        out.put("\\n");
    }
}

/// Adds the option by which a command takes the words of the case that decides, if one does, and ends the line.
fn put_words(out: &mut TextWriter, exercise: &Exercise, row: &GradeRow) {
    if let Some(case) = &row.case {
        out.put(" --given ");
        out.put_plain(&exercise.path);
        out.put("/cases/");
        out.put_plain(case);
        out.put(".data");
    }
    out.put("\n");
}

/// Adds the commands that write pages of a program that is not right.
fn put_pages(out: &mut TextWriter, request: &ExerciseRequest, exercise: &Exercise) {
    let number = exercise.number as u64;
    out.put("  mta_lab exercise ");
    out.put_number(number);
    out.put(" --page run.html");
    put_folder(out, request);
    out.put("\nTo choose each step yourself: mta_lab exercise ");
    out.put_number(number);
    out.put(" --play play.html");
    put_folder(out, request);
    out.put("\n");
}

/// Adds the option of the folder of all exercises, if it is not the usual one.
fn put_folder(out: &mut TextWriter, request: &ExerciseRequest) {
    if request.folder != USUAL_FOLDER {
        out.put(" --folder ");
        out.put_plain(request.folder);
    }
}

/// Adds which exercise comes next, if there is one.
pub(crate) fn put_next(out: &mut TextWriter, request: &ExerciseRequest, next: Option<&Exercise>) {
    let Some(next) = next else {
        return;
    };
    out.put("Next: ");
    out.put_plain(&next.path);
    out.put("/task.md says what to do in ");
    put_start(out, next);
    out.put("; then mta_lab exercise ");
    out.put_number(next.number as u64);
    put_folder(out, request);
    out.put("\n");
}

/// Adds the command that shows a hint.
pub(crate) fn put_hint_command(
    out: &mut TextWriter,
    request: &ExerciseRequest,
    exercise: &Exercise,
    hint: usize,
) {
    out.put(if hint == 1 { "A" } else { "The next" });
    out.put(" hint: mta_lab exercise ");
    out.put_number(exercise.number as u64);
    out.put(" --hint ");
    out.put_number(hint as u64);
    put_folder(out, request);
    out.put("\n");
}
