//! Runs that evade a condition, in words.

use crate::evading_files::evading_path;
use crate::waiting_text::{INDENT, put_steps};
use expectation_files::{Requirements, WrittenLine};
use processor::Step;
use search_texts::parts::texts::{RunPieces, TextWriter};
use search_texts::searches::endless::KeptConditions;
use search_texts::searches::endless::answered::{
    EvadingRun, Fairness, RunAnswer, RunCondition, RunEnd,
};
use search_texts::{put_turns, stop_words};
use std::alloc::AllocError;

/// A program of which it was asked whether all runs keep conditions.
#[derive(Clone, Copy)]
pub(crate) struct EvadingProgram<'a> {
    /// What is required of it.
    pub required: &'a Requirements,
    /// The answers.
    pub kept: &'a KeptConditions,
    /// The folder in which the schedules are kept, if they are.
    pub keep: Option<&'a str>,
}

/// A run that evades the condition of a place, and the line that requires it.
#[derive(Clone, Copy)]
pub(crate) struct ShownEvasion<'a> {
    /// The place of the condition.
    pub place: usize,
    /// The condition.
    pub condition: &'a RunCondition,
    /// The line.
    pub line: &'a WrittenLine,
    /// The run.
    pub run: &'a EvadingRun,
    /// What holds where it stops.
    pub stop: &'static str,
}

impl<'a> EvadingProgram<'a> {
    /// The run that evades the condition at a place, where one is shown.
    pub(crate) fn evasion_at(self, place: usize) -> Option<ShownEvasion<'a>> {
        let KeptConditions::Answered(answers) = self.kept else {
            return None;
        };
        let condition = self.required.run_conditions().get(place)?;
        let line = self.required.condition_lines().get(place)?;
        match answers.get(place) {
            Some(RunAnswer::Evaded(run)) => Some(ShownEvasion {
                place,
                condition,
                line,
                run,
                stop: stop_words(self.required),
            }),
            Some(RunAnswer::Kept | RunAnswer::Undecided) | None => None,
        }
    }

    /// How many conditions are required.
    pub(crate) fn count(self) -> usize {
        self.required.run_conditions().len()
    }
}

/// Adds for each condition that not all runs keep one that evades it.
pub(crate) fn push_evading_lines(
    text: &mut String,
    program: EvadingProgram<'_>,
) -> Result<(), AllocError> {
    let mut out = TextWriter::take(text);
    for place in 0..program.count() {
        if let Some(shown) = program.evasion_at(place) {
            put_evasion(&mut out, shown);
            put_schedules(&mut out, shown.run)?;
            put_kept(&mut out, program.keep, shown)?;
        }
    }
    out.give_back(text)
}

/// Adds which condition a run evades, by which line, and how long its parts are.
fn put_evasion(out: &mut TextWriter, shown: ShownEvasion<'_>) {
    out.put(match shown.condition {
        RunCondition::Leads {
            fairness: Fairness::ByWords,
            ..
        } => "fair by words: ",
        RunCondition::Leads {
            fairness: Fairness::BySteps,
            ..
        } => "fair by steps: ",
        RunCondition::Overtaken(_) => "overtaken too often: ",
    });
    out.put_plain(&shown.line.words);
    out.put(" (line ");
    out.put_number(shown.line.number as u64);
    out.put("): a schedule of ");
    put_steps(out, shown.run.stem.len());
    put_end(out, shown);
}

/// Adds what the run comes to after its first part, and how it goes on.
fn put_end(out: &mut TextWriter, shown: ShownEvasion<'_>) {
    match &shown.run.end {
        RunEnd::Repeats(round) => {
            out.put(" comes to the first, then ");
            put_way(out, &shown.run.way, " and ");
            put_steps(out, round.len());
            out.put(match (shown.run.way.len(), round.len()) {
                (0, 1) => " again and again never comes to the second\n",
                _ => " again and again never come to the second\n",
            });
        }
        RunEnd::Stops => {
            out.put(" comes to the first, then ");
            let never = match shown.run.way.len() {
                1 => " never comes to the second, and ",
                _ => " never come to the second, and ",
            };
            put_way(out, &shown.run.way, never);
            out.put_all(&[shown.stop, "\n"]);
        }
        RunEnd::Anything => {
            out.put(" comes to where it waits, then ");
            put_way(
                out,
                &shown.run.way,
                " in which it waits on and is overtaken\n",
            );
        }
    }
}

/// Adds how many steps a way has, and what follows; nothing where it has none.
fn put_way(out: &mut TextWriter, way: &[Step], after: &str) {
    if !way.is_empty() {
        put_steps(out, way.len());
        out.put(after);
    }
}

/// Adds the steps of a run, below it; nothing where it has none.
fn put_schedules(out: &mut TextWriter, run: &EvadingRun) -> Result<(), AllocError> {
    if has_no_steps(run) {
        return Ok(());
    }
    out.put(INDENT);
    let mut between = put_part(out, "", "by ", &run.stem)?;
    between = put_part(out, between, "then ", &run.way)?;
    if let RunEnd::Repeats(round) = &run.end {
        put_part(out, between, "then again and again ", round)?;
    }
    out.put("\n");
    Ok(())
}

/// Whether a run has no steps: all may rest at the start.
fn has_no_steps(run: &EvadingRun) -> bool {
    let is_round = match &run.end {
        RunEnd::Repeats(_) => true,
        RunEnd::Stops | RunEnd::Anything => false,
    };
    run.stem.is_empty() && run.way.is_empty() && !is_round
}

/// Adds a part of a run, where it has steps, after what stands between two parts. Gives what stands before the next one.
fn put_part(
    out: &mut TextWriter,
    between: &'static str,
    head: &str,
    steps: &[Step],
) -> Result<&'static str, AllocError> {
    if steps.is_empty() {
        return Ok(between);
    }
    out.put_all(&[between, head]);
    put_turns(out, steps)?;
    Ok(", ")
}

/// Adds the file that has the run, if it is kept, and what marks the round in it.
fn put_kept(
    out: &mut TextWriter,
    keep: Option<&str>,
    shown: ShownEvasion<'_>,
) -> Result<(), AllocError> {
    let Some(folder) = keep else {
        return Ok(());
    };
    let path = evading_path(out.alloc(), folder, shown.place)?;
    out.put(INDENT);
    out.put_plain(&path);
    if let RunEnd::Repeats(round) = &shown.run.end {
        out.put(": view and page mark the round with --round ");
        out.put_number(round.len() as u64);
    }
    out.put("\n");
    Ok(())
}
