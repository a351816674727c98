//! Schedules, traces and histories as text ("Schedules", "Traces", "Histories", "World text", docs/FORMATS.md).
#![tactic(auto)]

mod history_lines;
mod laws;
mod line_numbers;
mod rounds;
mod runs;
mod schedule_fault;
mod schedules;
mod trace_lines;
mod world_readers;
mod world_texts;
mod written_schedules;

pub use history_lines::{history_line, push_history_line};
pub use laws::written_schedules_are_read_back;
pub use rounds::round_schedule;
pub use schedule_fault::{ScheduleFault, ScheduleFaultKind};
pub use schedules::read_schedule;
pub use trace_lines::{TRACE_LINE, push_trace_line, trace_line};
pub use world_readers::WorldReaders;
pub use world_texts::{world_text, world_text_of_readers};
pub use written_schedules::write_schedule;
