//! A page that shows a run, or two of one program: the runs as JSON, and the page of them (docs/PAGE.md).
#![tactic(auto)]

mod end_texts;
mod lanes;
mod marked_rounds;
mod marks;
mod origins;
mod pages;
mod parts;
mod pictures;
mod run_verdicts;
mod runs;
mod streams_drawn;
mod waits;
mod whole_pages;
mod whole_run;
mod words_drawn;
mod written;

pub use lab_json as json_values;
pub use marked_rounds::MarkedRound;
pub use pages::{push_escaped, push_script_data};
pub use parts::{
    push_base_style, push_elements_script, push_program_script, push_sentences_script,
    push_values_script,
};
pub use pictures::picture_of;
pub use run_verdicts::{JudgedRun, RunVerdict};
pub use runs::{PairNames, RunNames};
pub use waits::{RunWait, run_waits};
pub use whole_pages::{page_of_pair, page_of_round, page_of_run};

/// The most steps of a run that a page shows.
pub const MOST_STEPS: usize = 100_000;

/// The most steps of each of two runs that a page shows.
pub const MOST_STEPS_OF_TWO: usize = 50_000;

/// The most steps of a run of which a page says what its values come from.
pub const MOST_ASKED_STEPS: usize = 10_000;

/// The most steps of a run that a picture shows.
pub const MOST_DRAWN_STEPS: usize = 500;
