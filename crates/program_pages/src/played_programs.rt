//! What a page of all schedules is made of.

use expectation_files::Requirements;
use lab_requests::Bounds;
use lab_texts::ProgramNames;
use processor::Step;
use schedule_page::goals::EndGoal;
use search_texts::parts::Program;
use search_texts::searches::ProgramSearch;

/// A program, and what its page of all schedules shows.
#[derive(Clone, Copy)]
pub struct PlayedProgram<'a, 't> {
    /// What it is called.
    pub called: &'a str,
    /// The program.
    pub program: &'a Program,
    /// The names of its places.
    pub names: &'a ProgramNames<'t>,
    /// What is required of it.
    pub required: &'a Requirements,
    /// The steps after which the page opens.
    pub opened: &'a [Step],
}

/// Which schedules a page has, and what it is to begin with.
#[derive(Clone, Copy)]
pub struct PageChoices<'a> {
    /// The steps that all schedules begin with.
    pub begin: &'a [Step],
    /// How far the search for their states goes.
    pub bounds: Bounds,
    /// The end that the reader is to reach first.
    pub goal: Option<EndGoal>,
}

/// How far a search goes for a page of so many states at most, at least 1, of which nothing else is said.
pub fn page_bounds(states: usize) -> Bounds {
    Bounds {
        worlds: states,
        seconds: None,
        megabytes: None,
        megabytes_in_all: None,
    }
}

impl<'a> PageChoices<'a> {
    /// The search for all states of a program, of which this is required.
    pub(crate) fn search(self, required: &'a Requirements) -> ProgramSearch<'a> {
        ProgramSearch {
            required,
            begin: self.begin,
            bounds: self.bounds,
            is_plain: true,
        }
    }
}
