//! The pages of the runs that lead to ends.

use crate::evading_text::EvadingProgram;
use crate::polling::PollingStream;
use crate::written_files::WrittenFiles;
use expectation_files::{NEVER_BUSY, NEVER_STARVED, Requirements, WrittenLine};
use plain_text::stem_of;
use replay_page::{JudgedRun, MOST_STEPS, RunNames, RunVerdict, page_of_run};
use search_texts::ends_in_words::may_wait_at_end;
use search_texts::parts::{Inputs, LabFault, Program};
use search_texts::push_expected;
use search_texts::searches::endless::EndlessWaits;
use search_texts::searches::{Explored, UnkeptConditions, UnkeptWaits};
use space_graphs::ends_in_words::broken_line;
use space_graphs::ends_of_space::{SpaceEnd, SpaceEndKind};
use std::alloc::{AllocError, Global};
use std::io::Read;
use std::rt::Files;

/// A program whose ends were found.
#[derive(Clone, Copy)]
pub(crate) struct FoundProgram<'a> {
    /// Its path.
    pub path: &'a str,
    /// The program.
    pub program: &'a Program,
    /// What is required of it.
    pub required: &'a Requirements,
    /// What the search among its schedules came to.
    pub found: &'a Explored<'a>,
    /// Who can wait forever; None if that was not asked, or has no answer.
    pub waits: Option<&'a EndlessWaits>,
    /// Whether it was asked, or is required that nobody can: only then it counts for the exit status.
    pub is_waiting_asked: bool,
    /// Who polls; nobody if it has no answer who can wait forever.
    pub polling: &'a [PollingStream],
    /// The folder for the schedules, if they are kept.
    pub keep: Option<&'a str>,
}

impl<'a> FoundProgram<'a> {
    /// Writes the page of the schedule to each end into a folder, as `1_deadlock.html` and so on: by the number of the end,
    /// and its kind. One that can't be written costs that page alone.
    pub(crate) fn write_pages<F: Files, R: Read>(
        self,
        alloc: Global,
        inputs: &Inputs<'_, F, R>,
        folder: &str,
        written: &mut WrittenFiles,
    ) -> Result<(), LabFault> {
        let mut count: usize = 0;
        for (index, end) in self.found.ends.iter().enumerate() {
            let number = index.saturating_add(1);
            let kind = end.kind.json_name();
            let path = format!(in alloc; "{folder}/{number}_{kind}.html")?;
            if end.schedule.len() > MOST_STEPS {
                written.note_long_run(&path, end.schedule.len())?;
                continue;
            }
            let page = self.page_of_end(alloc, number, end)?;
            written.keep(inputs.write_derived(alloc, &path, page.as_bytes()))?;
            count = count.saturating_add(1);
        }
        if count == 0 && !self.found.ends.is_empty() {
            written.keep(Err(no_page(alloc, folder)?))?;
        }
        Ok(())
    }

    /// The page of the schedule to the end of this number.
    fn page_of_end(
        self,
        alloc: Global,
        number: usize,
        end: &SpaceEnd,
    ) -> Result<String, AllocError> {
        let schedule = self.schedule_words(alloc, number, end)?;
        let missed = self.missed_words(alloc, end)?;
        let names = RunNames {
            program: stem_of(self.path),
            schedule: &schedule,
        };
        let image = &self.program.image;
        let judged = JudgedRun {
            verdict: self.verdict_of(end, &missed),
            may_wait: may_wait_at_end(alloc, image, self.required, &end.schedule)?,
        };
        page_of_run(
            alloc,
            names,
            judged,
            &self.program.text,
            image,
            &end.schedule,
        )
    }

    /// What the schedule to the end of this number is called.
    fn schedule_words(
        self,
        alloc: Global,
        number: usize,
        end: &SpaceEnd,
    ) -> Result<String, AllocError> {
        let kind = end.kind.name();
        let article = if self.found.is_shortest(end) {
            "a shortest schedule"
        } else {
            "a schedule"
        };
        let begins = match self.found.begin() {
            0 => "",
            _ => " that begins as given",
        };
        format!(in alloc; "{article} to end {number} ({kind}){begins}")
    }

    /// How an end was judged, which does not meet this line; nothing where that is empty. An end that is as expected is not
    /// judged if a line is left that the search does not decide.
    fn verdict_of<'m>(self, end: &SpaceEnd, missed: &'m str) -> RunVerdict<'m> {
        let required = self.required;
        if required.is_nothing() {
            RunVerdict::NotJudged
        } else if end.is_expected() && self.unkept_line().is_none() {
            if self.leaves_a_line() {
                RunVerdict::NotJudged
            } else {
                RunVerdict::Expected
            }
        } else if missed.is_empty() {
            RunVerdict::NotExpected { missed: None }
        } else {
            RunVerdict::NotExpected {
                missed: Some(missed),
            }
        }
    }

    /// Whether the search does not decide a line that is required of the program as a whole: one about who does the
    /// work; that nobody can wait forever; a condition on runs; and, if it came to a bound, a claim that has to hold of
    /// one state at least and that none shows, or that no stream loops alone.
    fn leaves_a_line(self) -> bool {
        let found = self.found;
        let is_open = found.unshown.is_some() || self.required.never_busy().is_some();
        !self.required.work().is_empty()
            || found.unkept().waits.is_some()
            || found.unkept().conditions.is_some()
            || (!found.is_complete && is_open)
    }

    /// The line that an end does not meet: a claim that is broken, an expectation, or one of the program as a whole; empty
    /// where none is.
    fn missed_words(self, alloc: Global, end: &SpaceEnd) -> Result<String, AllocError> {
        if let Some(line) = broken_line(self.required, end.kind) {
            return String::from_str(alloc, line.words);
        }
        let mut words = String::new(alloc);
        if let Some(place) = end.missed {
            push_expected(&mut words, self.required, place)?;
        } else if let Some(place) = end.broken
            && let Some(said) = self.required.claim_lines().get(place)
        {
            words.push_str(&said.words)?;
        } else if let Some(line) = self.unkept_line() {
            words.push_str(line)?;
        }
        Ok(words)
    }

    /// The first line that the program as a whole does not meet, whatever the end: a rule of programs, a claim that has to
    /// hold of one state at least, that no stream loops alone, that none can wait forever, or a condition on runs.
    fn unkept_line(&self) -> Option<&str> {
        let unkept = self.found.unkept();
        if let Some(place) = unkept.rule {
            return text_of(self.required.rule_lines().get(place));
        }
        if let Some(place) = unkept.unshown {
            return text_of(self.required.claim_lines().get(place));
        }
        for end in self.found.ends.iter() {
            if end.kind == SpaceEndKind::Busy {
                return Some(NEVER_BUSY);
            }
        }
        if let Some(UnkeptWaits::Starved(_)) = unkept.waits {
            return Some(NEVER_STARVED);
        }
        match unkept.conditions {
            Some(UnkeptConditions::Evaded(place)) => text_of(
                self.required.condition_lines().get(place),
            ),
            Some(
                UnkeptConditions::Undecided(_)
                | UnkeptConditions::Unanswered(_)
                | UnkeptConditions::RunsAlone,
            )
            | None => None,
        }
    }

    /// The program, where it was asked whether all runs keep conditions.
    pub(crate) fn evading(self) -> Option<EvadingProgram<'a>> {
        let kept = self.found.kept.as_ref()?;
        Some(EvadingProgram {
            required: self.required,
            kept,
            keep: self.keep,
        })
    }
}

/// That a folder gets no page: each run has too many steps.
fn no_page(alloc: Global, folder: &str) -> Result<LabFault, AllocError> {
    Ok(LabFault::Words(format!(in alloc; "{folder}: no page is written")?))
}

/// The words of a line.
fn text_of(line: Option<&WrittenLine>) -> Option<&str> {
    match line {
        Some(line) => Some(line.words.as_str()),
        None => None,
    }
}
