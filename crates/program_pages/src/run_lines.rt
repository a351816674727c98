//! What a search knows of the lines about runs: that no stream can wait forever, what leads to what, who is overtaken.

use expectation_files::{NEVER_STARVED, Requirements, WrittenLine};
use schedule_page::{BreakingRun, Following, JudgedLine};
use search_texts::is_another_line;
use search_texts::searches::Explored;
use search_texts::searches::endless::answered::{EvadingRun, RunAnswer, RunEnd};
use search_texts::searches::endless::{EndlessWaits, KeptConditions};
use std::alloc::{AllocError, Global};

/// The lines about runs.
#[derive(Drop)]
pub(crate) struct RunLines<'a> {
    /// Those of which the search knows whether all runs keep them.
    pub judged: Vec<JudgedLine<'a>>,
    /// The others, as they are written.
    pub open: Vec<&'a str>,
}

/// What is known of a line.
#[derive(Clone, Copy)]
enum LineAnswer<'a> {
    /// All runs keep it.
    Kept,
    /// This run does not.
    Broken(BreakingRun<'a>),
    /// Nothing.
    Open,
}

impl<'a> RunLines<'a> {
    /// The lines about runs of these requirements, of which this search was asked.
    pub(crate) fn of(
        alloc: Global,
        required: &'a Requirements,
        found: &'a Explored<'_>,
    ) -> Result<RunLines<'a>, AllocError> {
        let mut lines = RunLines {
            judged: Vec::new(alloc),
            open: Vec::new(alloc),
        };
        if required.never_starved().is_some() {
            lines.push(NEVER_STARVED, starving_answer(&found.waits))?;
        }
        let written = required.condition_lines();
        for (place, line) in written.iter().enumerate() {
            if is_another_line(written, place) {
                lines.push(&line.words, line_answer(written, &found.kept, place))?;
            }
        }
        Ok(lines)
    }

    /// Adds a line.
    fn push(&mut self, words: &'a str, answer: LineAnswer<'a>) -> Result<(), AllocError> {
        match answer {
            LineAnswer::Kept => self.judged.push(JudgedLine { words, run: None })?,
            LineAnswer::Broken(run) => self.judged.push(JudgedLine {
                words,
                run: Some(run),
            })?,
            LineAnswer::Open => self.open.push(words)?,
        }
        Ok(())
    }
}

/// What is known of the line that no stream can wait forever.
fn starving_answer(waits: &Option<EndlessWaits>) -> LineAnswer<'_> {
    let Some(EndlessWaits::Answered(found)) = waits else {
        return LineAnswer::Open;
    };
    match found.starving.first() {
        Some(starving) => LineAnswer::Broken(BreakingRun {
            stem: &starving.stem,
            way: &[],
            follows: Following::Round(&starving.round),
        }),
        None if found.undecided.is_empty() => LineAnswer::Kept,
        None => LineAnswer::Open,
    }
}

/// What is known of the line at a place, and at those after it as long as they are the same: one condition each.
fn line_answer<'a>(
    lines: &[WrittenLine],
    kept: &'a Option<KeptConditions>,
    place: usize,
) -> LineAnswer<'a> {
    let Some(KeptConditions::Answered(answers)) = kept else {
        return LineAnswer::Open;
    };
    let mut answer = LineAnswer::Kept;
    for at in place..lines.len() {
        if at > place && is_another_line(lines, at) {
            return answer;
        }
        match answers.get(at) {
            Some(RunAnswer::Evaded(run)) => return LineAnswer::Broken(breaking_run(run)),
            Some(RunAnswer::Kept) => {}
            Some(RunAnswer::Undecided) | None => answer = LineAnswer::Open,
        }
    }
    answer
}

/// A run that evades a condition, for the page.
fn breaking_run(run: &EvadingRun) -> BreakingRun<'_> {
    BreakingRun {
        stem: &run.stem,
        way: &run.way,
        follows: match &run.end {
            RunEnd::Repeats(round) => Following::Round(round),
            RunEnd::Stops => Following::Nothing,
            RunEnd::Anything => Following::Anything,
        },
    }
}
