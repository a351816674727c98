//! What one line of source text means (docs/WRITING_PROGRAMS.md).
#![tactic(auto)]

mod arguments;
mod combination;
mod control;
mod directive;
mod fault;
mod heads;
mod instruction;
mod item;
mod labels;
mod lines;
/// The names of operations, conditions and directives.
pub mod names;
mod numbers;
mod operand;
mod operation;
mod parts;
mod place;
mod profiles;
mod text;

pub use fault::Fault;
pub use item::Item;
pub use labels::Labels;
pub use lines::{SourceLine, cut_line, is_word, next_line, next_source_line, read_line};
pub use operation::Directive;
pub use place::Place;
pub use profiles::profile_named;
