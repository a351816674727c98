//! The commands `page`, `picture` and `play`: runs, and all schedules, for a browser.
#![tactic(auto)]

mod answers;
mod paging;
mod picturing;
mod playing;

pub use paging::write_page;
pub use picturing::write_picture;
pub use playing::write_play_page;
