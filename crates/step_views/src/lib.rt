//! What one step of a machine did: its changes are exactly the differences between the world before it and the world
//! after it (docs/MACHINE.md, "One step").
#![tactic(auto)]

mod differences;
mod full_bits;
mod laws;
mod numbers;
mod places;
mod reading;
mod same_contents;
mod seen;
mod step_views;

pub use laws::worlds_are_their_places;
pub use places::{Change, Content, Place, StreamPart};
pub use reading::content_of;
pub use same_contents::{is_same_content, is_same_status, is_same_status_word};
pub use step_views::{Reference, StepView, reference_of, take_step};
