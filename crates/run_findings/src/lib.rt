//! What went wrong in a run, by what each of its steps read and wrote: lost updates, unread stores and torn reads
//! ("Findings", docs/LAB_REFERENCE.md).
#![tactic(auto)]

mod actions;
mod findings;
mod glimpse;
mod halves;
mod links;
mod lost;
mod marks;
mod needs;
mod own;
mod pairs;
mod parting;
mod rounds;
mod searching;
mod sources;
mod stale;
mod torn;
mod unread;

pub use actions::{Access, Action, Deed};
pub use findings::Findings;
pub use lost::{LostUpdate, lost_updates};
pub use torn::{TornRead, torn_reads};
pub use unread::{UnreadStore, unread_stores};
