//! How runs and all schedules of a program end, in words: who was stopped, who waits, the words that changed, endless loops,
//! the first finding (docs/LAB_REFERENCE.md, "Every schedule").
#![tactic(auto)]

mod end_texts;
mod findings;
mod going_texts;
mod loop_texts;
mod space_texts;
mod waiting_ends;

pub use end_texts::{state_text, state_text_of_run};
pub use findings::{RunFindings, first_finding, push_findings_of_run};
pub use going_texts::going_text;
pub use lab_texts::WordRange;
pub use loop_texts::cycle_text;
pub use space_ends as ends_of_space;
pub use space_ends::space;
pub use space_texts::{
    BrokenLine, EndWords, broken_line, text_of_end, words_of_end, words_of_ends,
};
pub use waiting_ends::may_wait_at_end;
