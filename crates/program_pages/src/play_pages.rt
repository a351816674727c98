//! The page on which the reader is the scheduler of a program.

use crate::expected_texts::{expected_texts, unjudged_texts};
use crate::played_programs::{PageChoices, PlayedProgram};
use crate::run_lines::RunLines;
use image_machines::by_room;
use lab_requests::Bounds;
use lab_texts::{Notation, NumberStyle};
use schedule_page::ends_of_space::SpaceEnd;
use schedule_page::goals::{EndCriteria, EndGoal};
use schedule_page::{GraphNames, PageEnds, graph_json, page_of_graph};
use search_texts::ends_in_words::words_of_ends;
use search_texts::parts::{LabFault, Program};
use search_texts::search_fault;
use search_texts::searches::{Console, Explored, ProgramSearch, SearchBound, explore_program};
use std::alloc::{AllocError, Global};
use std::io::Write;
use std::time::Clock;

/// What comes of a page of all schedules.
#[derive(Drop)]
pub enum PlayPage {
    /// The page.
    Written(String),
    /// None: the search for the program's states came to this bound, and no memory was refused to it.
    TooLarge(SearchBound),
    /// None: no end is the one that the reader is to reach first.
    NoSuchEnd,
}

/// The page on which the reader is the scheduler of a program from its start on, if the search for its states comes to none
/// of these bounds.
pub fn play_page<C: Clock, E: Write>(
    alloc: Global,
    played: &PlayedProgram<'_, '_>,
    bounds: Bounds,
    console: &mut Console<'_, C, E>,
) -> Result<PlayPage, LabFault> {
    let choices = PageChoices {
        begin: &[],
        bounds,
        goal: None,
    };
    page_of_schedules(alloc, played, choices, console)
}

/// The page on which the reader is the scheduler of a program, of these choices.
pub fn page_of_schedules<C: Clock, E: Write>(
    alloc: Global,
    played: &PlayedProgram<'_, '_>,
    choices: PageChoices<'_>,
    console: &mut Console<'_, C, E>,
) -> Result<PlayPage, LabFault> {
    let asked = choices.search(played.required);
    let mut found = every_state(alloc, played.program, &asked, console)?;
    if found.is_complete {
        let criteria = criteria_of(played, &found);
        keep_placed(&mut found.ends);
        page_of_search(alloc, played, choices.goal, criteria, &found)
    } else {
        not_complete(found.bound)
    }
}

/// What is found of all schedules of a program. It has no clause, so what the search promises burdens no proof above it.
fn every_state<'i, C: Clock, E: Write>(
    alloc: Global,
    program: &'i Program,
    asked: &ProgramSearch<'_>,
    console: &mut Console<'_, C, E>,
) -> Result<Explored<'i>, LabFault> {
    match explore_program(alloc, &program.image, asked, console) {
        Ok(found) => Ok(found),
        Err(fault) => Err(search_fault(alloc, fault)?),
    }
}

/// Keeps the ends that have a state on the page: a claim that only the given beginning breaks has none.
fn keep_placed(ends: &mut Vec<SpaceEnd>) {
    ends.retain(|end| !end.places.is_empty());
}

/// The page of all states of a program, on which the reader is first to reach the end that is asked.
fn page_of_search(
    alloc: Global,
    played: &PlayedProgram<'_, '_>,
    asked: Option<EndGoal>,
    criteria: EndCriteria,
    found: &Explored<'_>,
) -> Result<PlayPage, LabFault> {
    let goal = match asked {
        Some(goal) => match goal.place(&found.ends, criteria) {
            Some(place) => Some(place),
            None => return Ok(PlayPage::NoSuchEnd),
        },
        None => None,
    };
    let judged = JudgedSearch {
        found,
        criteria,
        goal,
    };
    Ok(PlayPage::Written(page_text(alloc, played, judged)?))
}

/// What decides besides the ends whether they are right. A claim that the given beginning breaks is broken by every schedule
/// that begins so: then no end is right.
fn criteria_of(played: &PlayedProgram<'_, '_>, found: &Explored<'_>) -> EndCriteria {
    let criteria = EndCriteria::of(played.required, found.broken_rule, found.unshown);
    EndCriteria {
        is_judged: criteria.is_judged,
        keeps_rules: criteria.keeps_rules && !is_broken_before(&found.ends),
    }
}

/// Whether a claim is broken on the way through the steps that all schedules begin with.
fn is_broken_before(ends: &[SpaceEnd]) -> bool {
    for end in ends {
        if end.before > 0 {
            return true;
        }
    }
    false
}

/// What comes of a page where the search ended at a bound.
fn not_complete(bound: Option<SearchBound>) -> Result<PlayPage, LabFault> {
    match bound {
        Some(SearchBound::States) => Ok(PlayPage::TooLarge(SearchBound::States)),
        Some(SearchBound::Seconds) => Ok(PlayPage::TooLarge(SearchBound::Seconds)),
        Some(SearchBound::Memory) => Ok(PlayPage::TooLarge(SearchBound::Memory)),
        Some(SearchBound::Refused) | None => Err(LabFault::NoMemory),
    }
}

/// All states of a program, and what its ends are to a reader.
#[derive(Clone, Copy)]
struct JudgedSearch<'f, 'i> {
    /// The states, and their ends.
    found: &'f Explored<'i>,
    /// What decides besides the ends whether they are right.
    criteria: EndCriteria,
    /// The place of the end that is the first goal.
    goal: Option<usize>,
}

/// The page.
fn page_text(
    alloc: Global,
    played: &PlayedProgram<'_, '_>,
    judged: JudgedSearch<'_, '_>,
) -> Result<String, AllocError> {
    let image = &played.program.image;
    let graph = by_room!(image, graph_on(alloc, played, judged))?;
    let name = played.called;
    let title = format!(in alloc; "{name}, you are the scheduler")?;
    page_of_graph(alloc, &title, &graph)
}

/// The data of the page, on machines with room for `S` streams a processor.
fn graph_on<const S: usize>(
    alloc: Global,
    played: &PlayedProgram<'_, '_>,
    judged: JudgedSearch<'_, '_>,
) -> Result<String, AllocError> {
    let JudgedSearch {
        found,
        criteria,
        goal,
    } = judged;
    let required = played.required;
    let expected = expected_texts(alloc, required)?;
    let lines = RunLines::of(alloc, required, found)?;
    let unjudged = unjudged_texts(alloc, required, &lines.open)?;
    let notation = Notation {
        names: played.names,
        style: NumberStyle::Decimal,
    };
    let image = &played.program.image;
    let words = words_of_ends(alloc, notation, required, image, &found.ends)?;
    let ends = PageEnds {
        known: &found.ends,
        words: &words,
    };
    let asked = GraphNames {
        program: played.called,
        expected: &expected,
        runs: &lines.judged,
        unjudged: &unjudged,
        criteria,
        goal,
        opened: played.opened,
    };
    let text = &played.program.text;
    graph_json::<S>(alloc, asked, text, played.names, &found.space, ends)
}
