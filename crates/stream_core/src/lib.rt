//! One stream of a processor: its registers, its status word, and what one step does to it
//! (docs/MACHINE.md, "Streams", "Status words", "One step", "Traps").
#![tactic(auto)]

mod arithmetic;
mod conditions;
mod conversions;
mod registers;
mod status_words;
mod steps;
mod stream_texts;
mod streams;
mod traps;

pub use arithmetic::{alu, less_after_subtraction, signed_shift_divides};
pub use conditions::{Code, holds};
pub use conversions::{acc_of, trap_of};
pub use status_words::{Codes, StatusWord, TrapMask, status_words_are_their_digits};
pub use steps::{Child, Control, Fetch, Outcome, Plan, Status};
pub use stream_texts::stream_text;
pub use streams::{Stream, displaced_pointer};
pub use traps::TrapKind;
