//! What decides a verdict, in words.

use crate::evasion_words::evasion_words;
use crate::report_lines::CaseLines;
use case_cells::{SpokenRange, SpokenWords, spoken_words};
use expectation_files::Requirements;
use expectation_messages::parts::made_by;
use grade_rows::ReportLine;
use grade_rows::judges::work::MissedWork;
use grade_rows::judges::{
    CaseJudgement, Evasion, Known, MissedLine, Reason, RunFlaw, ShownRun, VerdictKind, Witness,
};
use image_file::Image;
use image_machines::by_room;
use lab_requests::Maker;
use lab_texts::{Notation, TextWriter};
use processor::Step;
use search_texts::ends_in_words::ends_of_space::SpaceEnd;
use search_texts::ends_in_words::{
    WordRange, cycle_text, first_finding, going_text, state_text_of_run, text_of_end,
};
use search_texts::searches::endless::seen_round;
use search_texts::searches::endless::starving::Starving;
use search_texts::{put_turns, put_waiting, work_words};
use std::alloc::{AllocError, Global};

/// What is said of a line that no run shows.
const NO_RUN_CAN: &str = "a run cannot show it; use --explore";

/// What is said where a search has all, and it was not decided who can wait forever.
const WAITS_LEFT_OPEN: &str = "it is not decided who can wait forever: explore says why";

/// What is said where a search has all, and it was not decided whether all runs keep a condition.
const CONDITIONS_LEFT_OPEN: &str = "a line about runs is not decided: explore says why";

/// What decides a judgement by a case, in words.
#[derive(Drop)]
pub(crate) struct CaseText {
    /// The name of the case; None where it is the only one.
    pub name: Option<String>,
    /// What shows it.
    pub witness: Witness,
    /// The line that is not met, or by which the submission can't be judged.
    pub missed: Option<ReportLine>,
    /// Who was stopped, who waits and which words changed, or what the submission lacks.
    pub words: String,
    /// A finding of the run that shows it.
    pub finding: String,
}

impl CaseText {
    /// Nothing.
    pub(crate) fn new(alloc: Global) -> CaseText {
        CaseText {
            name: None,
            witness: Witness::None,
            missed: None,
            words: String::new(alloc),
            finding: String::new(alloc),
        }
    }
}

/// A program that a case makes of a submission, what the case requires of it, and how it is written.
#[derive(Clone, Copy)]
pub(crate) struct CaseNotation<'a, 't> {
    /// Its image.
    pub image: &'a Image,
    /// What is required.
    pub lines: CaseLines<'a>,
    /// How it is written.
    pub notation: Notation<'a, 't>,
    /// The most steps of the run of a seed.
    pub most: usize,
}

impl CaseNotation<'_, '_> {
    /// Writes what decides a judgement: the line that is not met, why, and a finding: the first that is about a word of
    /// this line, else the first of all.
    pub(crate) fn add_reason(
        self,
        alloc: Global,
        judgement: &CaseJudgement,
        text: &mut CaseText,
    ) -> Result<(), AllocError> {
        let missed = missed_line(judgement);
        text.missed = self.lines.line_of(alloc, missed)?;
        match &judgement.reason {
            Reason::Absent { .. } | Reason::Lacking { .. } | Reason::NotGiven { .. } => Ok(()),
            Reason::Looked => text
                .words
                .push_str(left_open(judgement, self.lines.required)),
            Reason::Run(run) => self.add_run(alloc, run, missed, text),
            Reason::End(place) => match judgement.ends.get(*place) {
                Some(end) => self.add_end(alloc, end, missed, text),
                None => Ok(()),
            },
            Reason::NoSchedule { .. } => text.words.push_str("no schedule has such a state"),
            Reason::NoRun { .. } => text.words.push_str("no run has such a state"),
            Reason::Starved(shown) => self.add_starving(alloc, shown, missed, text),
            Reason::Evaded(shown) => self.add_evasion(alloc, shown, missed, text),
            Reason::NoRunCan => text.words.push_str(NO_RUN_CAN),
            Reason::OpenWaits => text
                .words
                .push_str(why_open(judgement.known, WAITS_LEFT_OPEN)),
            Reason::OpenConditions => text
                .words
                .push_str(why_open(judgement.known, CONDITIONS_LEFT_OPEN)),
            Reason::Rule(_) => self.add_rule(text),
            Reason::Work(missed) => self.add_work(alloc, *missed, text),
        }
    }

    /// Writes what the run of a seed shows.
    fn add_run(
        self,
        alloc: Global,
        run: &ShownRun,
        missed: Option<MissedLine>,
        text: &mut CaseText,
    ) -> Result<(), AllocError> {
        let maker = Maker::Random { seed: run.seed };
        let made = made_by(alloc, self.image, maker, self.most)?;
        self.add_run_by(alloc, run, &made.steps, text)?;
        text.finding = self.finding(alloc, &made.steps, missed)?;
        Ok(())
    }

    /// Writes where the run of a seed by these steps ends, and what it does if it has no end.
    fn add_run_by(
        self,
        alloc: Global,
        run: &ShownRun,
        steps: &[Step],
        text: &mut CaseText,
    ) -> Result<(), AllocError> {
        if run.flaw == RunFlaw::OutOfSteps {
            text.words = going_text(alloc, self.notation, self.image, steps)?;
        }
        let shown = state_text_of_run(alloc, self.notation, self.image, steps, &run.end.state)?;
        push_after(&mut text.words, &shown)
    }

    /// Writes what an end of all schedules shows: nothing beside the line where its worlds break one.
    fn add_end(
        self,
        alloc: Global,
        end: &SpaceEnd,
        missed: Option<MissedLine>,
        text: &mut CaseText,
    ) -> Result<(), AllocError> {
        if end.kind.is_end() {
            text.words = self.end_words(alloc, end)?;
        }
        text.finding = self.finding(alloc, &end.schedule, missed)?;
        Ok(())
    }

    /// Writes where a stream can wait forever and for what, after its schedule, and the round in which it does.
    fn add_starving(
        self,
        alloc: Global,
        shown: &Starving,
        missed: Option<MissedLine>,
        text: &mut CaseText,
    ) -> Result<(), AllocError> {
        text.words = self.waiting_words(alloc, shown)?;
        text.finding = self.finding(alloc, &shown.stem, missed)?;
        Ok(())
    }

    /// Writes how a run evades a condition.
    fn add_evasion(
        self,
        alloc: Global,
        shown: &Evasion,
        missed: Option<MissedLine>,
        text: &mut CaseText,
    ) -> Result<(), AllocError> {
        text.words = evasion_words(alloc, self.lines.required, &shown.run)?;
        text.finding = self.finding(alloc, &shown.run.stem, missed)?;
        Ok(())
    }

    /// Where a stream can wait forever and for what, and the round in which it does.
    fn waiting_words(self, alloc: Global, shown: &Starving) -> Result<String, AllocError> {
        let mut out = TextWriter::new(alloc);
        self.put_round(&mut out, shown)?;
        out.take_text()
    }

    /// Adds it.
    fn put_round(self, out: &mut TextWriter, shown: &Starving) -> Result<(), AllocError> {
        let round = seen_round(out.alloc(), self.image, shown)?;
        put_waiting(out, self.notation.names, shown.stream, &round);
        out.put(", again and again ");
        put_turns(out, &shown.round)
    }

    /// What an end of all schedules shows: where the streams were stopped, or the steps of a cycle of one that spins.
    fn end_words(self, alloc: Global, end: &SpaceEnd) -> Result<String, AllocError> {
        let CaseNotation {
            image,
            notation,
            lines,
            ..
        } = self;
        if !end.kind.is_endless() {
            return state_text_of_run(alloc, notation, image, &end.schedule, &end.state);
        }
        let mut words = cycle_text(alloc, notation.names, image, end)?;
        let shown = text_of_end(alloc, notation, lines.required, image, end)?;
        push_after(&mut words, &shown)?;
        Ok(words)
    }

    /// The first finding of a run that is about a word of the line that is missed, else the first of all; empty where it has
    /// none.
    fn finding(
        self,
        alloc: Global,
        steps: &[Step],
        missed: Option<MissedLine>,
    ) -> Result<String, AllocError> {
        let words = missed_words(alloc, self.lines.required, missed)?;
        by_room!(
            self.image,
            finding_of(alloc, self.notation, self.image, steps, &words)
        )
    }

    /// Writes who does not do the work in the run of a seed; the findings of that run say nothing of it.
    fn add_work(
        self,
        alloc: Global,
        missed: MissedWork,
        text: &mut CaseText,
    ) -> Result<(), AllocError> {
        if let Some(rule) = self.lines.required.work().get(missed.rule) {
            text.words = work_words(alloc, *rule, missed.end)?;
        }
        Ok(())
    }

    /// Writes which rule of programs is broken.
    fn add_rule(self, text: &mut CaseText) -> Result<(), AllocError> {
        let path = self.lines.case.path.as_str();
        if let Some(rule) = &text.missed {
            let line = rule.number;
            let words = rule.text.as_str();
            write!(text.words, "{path}:{line}: not {words}")?;
        }
        Ok(())
    }
}

/// The line that is not met. It has no clause, so that of `missed` burdens no proof above it.
fn missed_line(judgement: &CaseJudgement) -> Option<MissedLine> {
    judgement.missed()
}

/// What a verdict leaves open by all that was looked at, after a search that has all: who can wait forever, where nobody is
/// to, or else whether all runs keep the conditions.
fn left_open(judgement: &CaseJudgement, required: &Requirements) -> &'static str {
    if judgement.kind != VerdictKind::NotDecided || !judgement.known.is_every {
        return "";
    }
    if required.never_starved().is_some() {
        WAITS_LEFT_OPEN
    } else {
        CONDITIONS_LEFT_OPEN
    }
}

/// Why it is not decided, by what was looked at: these words after a search that has all.
fn why_open(known: Known, left_open: &'static str) -> &'static str {
    if known.is_every {
        left_open
    } else if known.worlds.is_some() {
        "the search is not complete"
    } else {
        NO_RUN_CAN
    }
}

/// The same, on machines with room for `S` streams a processor.
fn finding_of<const S: usize>(
    alloc: Global,
    notation: Notation<'_, '_>,
    image: &Image,
    steps: &[Step],
    words: &[WordRange],
) -> Result<String, AllocError> {
    first_finding::<S>(alloc, notation, image, steps, words)
}

/// The words of the memory of which a line speaks that is not met.
fn missed_words(
    alloc: Global,
    required: &Requirements,
    missed: Option<MissedLine>,
) -> Result<Vec<WordRange>, AllocError> {
    let mut words = Vec::new(alloc);
    if let Some(place) = place_spoken(required, missed) {
        add_words(alloc, required, place, &mut words)?;
    }
    Ok(words)
}

/// The place of a line among those that speak of words: the expectations of an end, then the claims, then the lines about who
/// does the work; None of a line that speaks of none.
fn place_spoken(required: &Requirements, missed: Option<MissedLine>) -> Option<usize> {
    let ends = required.ends().len();
    match missed {
        Some(MissedLine::End(place)) => Some(place),
        Some(MissedLine::Claim(place)) => Some(ends.saturating_add(place)),
        Some(MissedLine::Work(place)) => Some(
            ends.saturating_add(required.claims().len())
                .saturating_add(place),
        ),
        Some(
            MissedLine::Busy
            | MissedLine::Starved
            | MissedLine::Condition(_)
            | MissedLine::Rule(_)
            | MissedLine::Absent { .. },
        )
        | None => None,
    }
}

/// Adds the words of which the line of a place speaks.
fn add_words(
    alloc: Global,
    required: &Requirements,
    place: usize,
    words: &mut Vec<WordRange>,
) -> Result<(), AllocError> {
    match spoken_at(alloc, required, place)? {
        Some(SpokenWords { one, other }) => {
            add_range(one, words)?;
            add_range(other, words)
        }
        None => Ok(()),
    }
}

/// The words of which the line of a place speaks; None where there is no such line.
fn spoken_at(
    alloc: Global,
    required: &Requirements,
    place: usize,
) -> Result<Option<SpokenWords>, AllocError> {
    Ok(spoken_words(alloc, required)?.get(place).copied())
}

/// Adds a range of words, where there is one.
fn add_range(range: Option<SpokenRange>, words: &mut Vec<WordRange>) -> Result<(), AllocError> {
    if let Some(SpokenRange { first, last }) = range {
        words.push(WordRange { first, last })?;
    }
    Ok(())
}

/// Adds a text after what stands there, if both have something.
fn push_after(words: &mut String, text: &str) -> Result<(), AllocError> {
    if !words.is_empty() && !text.is_empty() {
        words.push_str("; ")?;
    }
    words.push_str(text)
}
