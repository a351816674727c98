//! The tool's commands, as engines over any reader and writer (docs/FORMATS.md, "The command line").
#![tactic(auto)]

mod asm;
mod byte_reader;
mod debug;
mod debug_answers;
mod headline;
mod image_and_schedule;
mod input;
mod line_reader;
mod line_start;
mod list;
mod loading;
mod output;
mod program_lines;
mod run;
mod stream_room;
mod threads;
mod tool_fault;
mod window;
mod words;
mod words_image;
mod woven_readers;

pub use asm::asm_engine;
pub use debug::debug_engine;
pub use headline::{OneMachine, one_machine};
pub use input::INPUT_LIMIT;
pub use list::list_engine;
pub use run::run_engine;
pub use threads::threads_engine;
pub use tool_fault::ToolFault;
pub use words::words_engine;
