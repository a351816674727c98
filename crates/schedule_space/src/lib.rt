//! The worlds that every schedule of an image leads to (docs/MACHINE.md, "Schedules").
#![tactic(auto)]

mod expanding;
mod explorations;
mod fates;
mod finding;
mod kept_machines;
mod key_streams;
mod known_steps;
mod links;
mod machines;
mod marks;
mod next_worlds;
mod observations;
mod quiet;
mod reaching;
mod routes;
mod spaces;
mod stepping;
mod together;
mod unread_places;
mod unseen;
mod watches;

pub use explorations::{Exploration, explore, explore_ends};
pub use fates::Fate;
pub use links::{Edge, Link};
pub use machines::machine_at;
pub use observations::Observation;
pub use spaces::Space;
pub use watches::{Bound, Watch};
