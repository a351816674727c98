//! What is said of a search: its head and its ends, in words or as objects.

use crate::asked_waits::is_left_open;
use crate::end_pages::FoundProgram;
use crate::endless::{WaitingProgram, going_streams, is_livelock, is_spinning};
use crate::evading_objects::push_evading_objects;
use crate::evading_text::push_evading_lines;
use crate::explored_objects::push_objects;
use crate::polling::open_polling;
use end_kinds::Status;
use expectation_files::Requirements;
use plain_text::{plural, push_plain};
use schedule_turns::turns_of;
use search_texts::parts::CommandAnswer;
use search_texts::parts::texts::Notation;
use search_texts::searches::Explored;
use search_texts::{
    EndCells, EndColumns, ExpectedLines, LookedAt, end_line, push_expected, push_undecided_work,
    push_undecided_work_objects, push_unkept, push_unkept_objects,
};
use space_graphs::ends_in_words::{EndWords, words_of_ends};
use space_graphs::ends_of_space::SpaceEnd;
use std::alloc::{AllocError, Global};

/// The most turns of a schedule that are shown with a claim that it breaks.
const MOST_TURNS: usize = 40;

/// What is said below an endless loop in which no step changes a word.
const LIVELOCK: &str = "livelock: no step changes a word any more";

/// What is said of a program with an endless loop where the search of all states came to a bound.
const NOT_ALL_STATES: &str =
    "not decided: who can wait forever: a search of all states came to a bound\n";

/// What is said of a search among the schedules of a program, and of who can wait forever, if that was asked or is required.
pub(crate) fn answer_of(
    alloc: Global,
    is_json: bool,
    notation: Notation<'_, '_>,
    shown: FoundProgram<'_>,
) -> Result<CommandAnswer, AllocError> {
    let FoundProgram {
        required,
        found,
        ..
    } = shown;
    let image = &shown.program.image;
    let mut output = String::new(alloc);
    if is_json {
        push_objects(alloc, &mut output, image, ExpectedLines { required }, found)?;
        push_unkept_objects(alloc, &mut output, required, found.unkept())?;
        push_undecided_work_objects(alloc, &mut output, required)?;
    } else {
        let words = words_of_ends(alloc, notation, required, image, &found.ends)?;
        push_lines(alloc, &mut output, required, found, &words)?;
    }
    push_evasions(alloc, &mut output, is_json, shown)?;
    let of_waits = push_waits(alloc, &mut output, is_json, notation, shown)?;
    let status = found.status().worse(work_status(required)).worse(of_waits);
    Ok(CommandAnswer::printed(alloc, output, status))
}

/// Adds who can wait forever, if that was asked or is required, or that it is not decided of a program with an endless loop.
/// Gives what the answer means for the exit status.
fn push_waits(
    alloc: Global,
    out: &mut String,
    is_json: bool,
    notation: Notation<'_, '_>,
    shown: FoundProgram<'_>,
) -> Result<Status, AllocError> {
    let Some(waits) = shown.waits else {
        if !is_json && is_left_open(shown.found) {
            out.push_str(NOT_ALL_STATES)?;
        }
        return Ok(Status::Done);
    };
    let rests = shown.required.rests();
    let going = going_streams(alloc, shown.found, waits, rests)?;
    let polling = open_polling(alloc, shown.polling, shown.required, &shown.found.kept)?;
    let waiting = WaitingProgram {
        names: notation.names,
        image: &shown.program.image,
        begin: shown.found.begin(),
        keep: shown.keep,
        waits,
        rests,
        going: &going,
        polling: &polling,
    };
    waiting.push(alloc, out, is_json)?;
    Ok(waits.status_if(shown.is_waiting_asked))
}

/// Adds the runs that never come to what a condition is to lead to, where that is required of some and one shows it.
fn push_evasions(
    alloc: Global,
    out: &mut String,
    is_json: bool,
    shown: FoundProgram<'_>,
) -> Result<(), AllocError> {
    match shown.evading() {
        Some(program) if is_json => push_evading_objects(alloc, out, program),
        Some(program) => push_evading_lines(out, program),
        None => Ok(()),
    }
}

/// What it means for the exit status that a search does not decide who does the work.
fn work_status(required: &Requirements) -> Status {
    if required.work().is_empty() {
        Status::Done
    } else {
        Status::OutOfSteps
    }
}

/// Adds how much was found, what is not so of the program as a whole, and the lines of the ends.
fn push_lines(
    alloc: Global,
    out: &mut String,
    required: &Requirements,
    found: &Explored<'_>,
    words: &[EndWords],
) -> Result<(), AllocError> {
    push_head_line(out, found)?;
    push_unkept(out, required, found.unkept(), looked_at(found))?;
    push_undecided_work(out, required)?;
    let columns = columns_of(alloc, found)?;
    if !found.ends.is_empty() {
        columns.push_names(out)?;
    }
    for (end, words) in found.ends.iter().zip(words) {
        let cells = EndLine { found, end, words };
        cells.push(alloc, out, columns, required)?;
    }
    Ok(())
}

/// The columns of the ends that a search found.
fn columns_of(alloc: Global, found: &Explored<'_>) -> Result<EndColumns, AllocError> {
    let mut columns = EndColumns::named("states", "reached in");
    for end in found.ends.iter() {
        let kind = kind_words(alloc, end)?;
        let reached = reached_words(alloc, found, end)?;
        columns.widen(EndCells {
            count: end.worlds(),
            kind: &kind,
            reached: &reached,
        });
    }
    Ok(columns)
}

/// Adds how much was found, in words.
pub(crate) fn push_head_line(out: &mut String, found: &Explored<'_>) -> Result<(), AllocError> {
    let worlds = found.worlds();
    let steps = found.steps();
    let which = schedules_of(found);
    let some_worlds = plural(worlds);
    let some_steps = plural(steps);
    let explored = if found.is_of_all_worlds {
        ""
    } else {
        " explored"
    };
    write!(
        out,
        "{which}: {worlds} state{some_worlds}{explored}, {steps} step{some_steps}, "
    )?;
    match found.bound {
        Some(bound) => {
            let words = bound.words();
            write!(
                out,
                "not complete, {words}: nothing is said of the others\n"
            )
        }
        None => out.push_str("complete\n"),
    }
}

/// The states among which a search looked.
fn looked_at(found: &Explored<'_>) -> LookedAt {
    match found.begin() {
        0 => LookedAt::EverySchedule,
        _ => LookedAt::SchedulesThatBeginSo,
    }
}

/// Which schedules a search covers.
fn schedules_of(found: &Explored<'_>) -> &'static str {
    match (found.is_complete, found.begin()) {
        (true, 0) => "every schedule",
        (true, _) => "every schedule that begins so",
        (false, 0) => "some schedules",
        (false, _) => "some schedules that begin so",
    }
}

/// An end that a search found, as a line shows it.
#[derive(Clone, Copy)]
struct EndLine<'f, 'i> {
    /// The search.
    found: &'f Explored<'i>,
    /// The end.
    end: &'f SpaceEnd,
    /// It in words.
    words: &'f EndWords,
}

impl EndLine<'_, '_> {
    /// Adds the line.
    fn push(
        self,
        alloc: Global,
        out: &mut String,
        columns: EndColumns,
        required: &Requirements,
    ) -> Result<(), AllocError> {
        let EndLine { found, end, words } = self;
        let kind = kind_words(alloc, end)?;
        let reached = reached_words(alloc, found, end)?;
        let cells = EndCells {
            count: end.worlds(),
            kind: &kind,
            reached: &reached,
        };
        columns.push_cells(out, cells)?;
        push_plain(out, &words.text)?;
        push_missed(out, required, end, &words.text)?;
        end_line(out)?;
        columns.push_note(out, &words.finding)?;
        columns.push_note(out, &words.cycle)?;
        columns.push_note(out, livelock_words(end))?;
        columns.push_note(out, &broken_words(alloc, end)?)
    }
}

/// The kind of an end, and of how many sets it is where worlds spin.
fn kind_words(alloc: Global, end: &SpaceEnd) -> Result<String, AllocError> {
    let kind = end.kind.name();
    if !is_spinning(end) {
        return String::from_str(alloc, kind);
    }
    let sets = end.sets;
    let some_sets = plural(sets);
    format!(in alloc; "{kind} in {sets} set{some_sets}")
}

/// That an endless loop is a livelock; empty of others, and of ends.
fn livelock_words(end: &SpaceEnd) -> &'static str {
    if is_livelock(end) { LIVELOCK } else { "" }
}

/// In how many steps an end is reached, and from how many worlds.
fn reached_words(
    alloc: Global,
    found: &Explored<'_>,
    end: &SpaceEnd,
) -> Result<String, AllocError> {
    let steps = end.schedule.len();
    let sources = end.sources;
    let some_steps = plural(steps);
    let some_sources = plural(sources);
    let by = if found.is_shortest(end) {
        ""
    } else {
        "a schedule of "
    };
    format!(in alloc; "{by}{steps} step{some_steps}, from {sources} state{some_sources}")
}

/// The schedule that breaks a claim, where one is broken after some step, as `by 0 0 3, 1 0 2`; empty of other ends.
fn broken_words(alloc: Global, end: &SpaceEnd) -> Result<String, AllocError> {
    let mut words = String::new(alloc);
    if end.kind.is_end() || end.schedule.is_empty() {
        return Ok(words);
    }
    for (index, turn) in turns_of(alloc, &end.schedule)?.iter().enumerate() {
        if index == MOST_TURNS {
            words.push_str(", ..")?;
            break;
        }
        words.push_str(if index == 0 { "by " } else { ", " })?;
        write!(words, "{turn}")?;
    }
    Ok(words)
}

/// Adds in what an end is not as expected, where something is.
fn push_missed(
    out: &mut String,
    required: &Requirements,
    end: &SpaceEnd,
    text: &str,
) -> Result<(), AllocError> {
    if required.is_nothing() || !end.is_trapped && end.missed.is_none() {
        return Ok(());
    }
    push_missed_head(out, text)?;
    match end.missed {
        Some(place) => {
            out.push_str(": ")?;
            push_expected(out, required, place)
        }
        None => Ok(()),
    }
}

/// Adds that an end is not as expected, apart from what is said of it before.
fn push_missed_head(out: &mut String, text: &str) -> Result<(), AllocError> {
    out.push_str(if text.is_empty() { "" } else { "   " })?;
    out.push_str("NOT as expected")
}
