//! The pages of programs that are at hand: the page of a run, and the page of all schedules (docs/PAGE.md, docs/PLAY.md).
#![tactic(auto)]

mod expected_texts;
mod play_pages;
mod played_programs;
mod replays;
mod run_lines;
mod unmade_pages;

pub use expectation_files as expected;
pub use play_pages::{PlayPage, page_of_schedules, play_page};
pub use played_programs::{PageChoices, PlayedProgram, page_bounds};
pub use replays::replay_page;
pub use schedule_page::{ends_of_space, goals, states};
pub use search_texts as search_words;
pub use search_texts::{ends_in_words, searches};
pub use unmade_pages::too_large;
