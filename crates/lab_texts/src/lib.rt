//! What people read of a program and its runs: names of its places, what a step did, who waits for what, how a run
//! ended, and its findings (docs/LAB_REFERENCE.md).
#![tactic(auto)]

mod addresses;
mod changes;
mod differences;
mod ends;
mod findings;
mod findings_of_run;
mod names;
mod notation;
mod run_pieces;
mod step_lines;
mod values;
mod waits;

pub use changes::{put_part_of, put_stream_part};
pub use differences::{
    push_changed_words, push_differences, push_differing_words, put_differing_words,
};
pub use ends::{RunEnd, StoppedStream, end_of, push_end, put_end, stopped_streams};
pub use findings::{FindingTexts, push_findings, push_first_finding, put_findings};
pub use findings_of_run::{FindingsOfRun, MOST_STEPS_OF_TORN};
pub use first_findings::WordRange;
pub use names::ProgramNames;
pub use notation::Notation;
pub use plain_text::{TextWriter, plural};
pub use run_pieces::RunPieces;
pub use step_lines::{
    Columns, push_lane_head, push_lane_text, push_step_head, push_step_line, push_step_number,
    push_step_text, put_step_line,
};
pub use stream_waits as waiting_streams;
pub use values::{NumberStyle, push_stream, push_trap, push_value, push_word, put_word};
pub use waits::{full_word, turned_word, wanted_word};
