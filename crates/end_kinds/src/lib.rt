//! How a run ends: the kinds of ends with their words, the kind of the world that a machine is in, and the exit status
//! that ends come to (docs/LAB.md, "Ends", "Exit statuses").
#![tactic(auto)]

mod deciding;
mod kinds;
mod statuses;

pub use deciding::{end_kind_of, some_stopped};
pub use kinds::EndKind;
pub use statuses::{Status, status_of};
