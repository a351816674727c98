//! The program of a card, and its pages.

use crate::levels::{Level, LevelFile};
use exercise_files::expected::Requirements;
use exercise_files::parts::texts::ProgramNames;
use exercise_files::parts::{LabFault, Program};
use lab_requests::MOST_PLAYED;
use processor::Step;
use program_pages::goals::EndGoal;
use program_pages::searches::Console;
use program_pages::{
    PageChoices, PlayPage, PlayedProgram, page_bounds, page_of_schedules, replay_page,
};
use replay_page::{RunNames, RunVerdict};
use std::alloc::{AllocError, Global};
use std::io::Write;
use std::time::Clock;

/// A program, and the run that its card shows.
#[derive(Clone, Copy)]
pub(crate) struct ShownProgram<'a> {
    /// What its pages call it.
    pub called: &'a str,
    /// The program.
    pub program: &'a Program,
    /// What is required of it.
    pub required: &'a Requirements,
    /// The steps of the run.
    pub steps: &'a [Step],
    /// What the schedule is called.
    pub schedule: &'a str,
    /// How the run is judged.
    pub verdict: RunVerdict<'a>,
}

impl ShownProgram<'_> {
    /// The page of all schedules, whose first goal is that of the level; None if the program is too large for it.
    pub(crate) fn page_of_all<C: Clock, E: Write>(
        self,
        alloc: Global,
        level: Option<&Level<'_>>,
        file: &LevelFile,
        console: &mut Console<'_, C, E>,
    ) -> Result<Option<String>, LabFault> {
        let names = ProgramNames::of(alloc, &self.program.text)?;
        let played = PlayedProgram {
            called: self.called,
            program: self.program,
            names: &names,
            required: self.required,
            opened: &[],
        };
        let choices = PageChoices {
            begin: &[],
            bounds: page_bounds(MOST_PLAYED),
            goal: goal_of(level),
        };
        match page_of_schedules(alloc, &played, choices, console) {
            Ok(PlayPage::Written(page)) => Ok(Some(page)),
            Ok(PlayPage::TooLarge(_)) => Ok(None),
            Ok(PlayPage::NoSuchEnd) => no_such_end(alloc, level, file),
            Err(fault) => Err(fault),
        }
    }

    /// The page of the run; None if it has more steps than a page.
    pub(crate) fn page_of_run(self, alloc: Global) -> Result<Option<String>, AllocError> {
        let names = RunNames {
            program: self.called,
            schedule: self.schedule,
        };
        replay_page(
            alloc,
            names,
            self.verdict,
            self.program,
            self.required,
            self.steps,
        )
    }
}

/// The end that the reader is to reach first: that of the level.
fn goal_of(level: Option<&Level<'_>>) -> Option<EndGoal> {
    match level {
        Some(level) => Some(EndGoal::of_word(level.goal)),
        None => None,
    }
}

/// That no schedule can reach a level.
fn no_such_end(
    alloc: Global,
    level: Option<&Level<'_>>,
    file: &LevelFile,
) -> Result<Option<String>, LabFault> {
    let Some(level) = level else {
        return Err(LabFault::Write);
    };
    let goal = level.goal;
    let why = format!(in alloc; "no schedule of the program ends so: {goal}")?;
    Err(file.fault(alloc, level.line, &why)?)
}
