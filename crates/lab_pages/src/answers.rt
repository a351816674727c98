//! What the commands say that write a page.

use expectation_messages::parts::{CommandAnswer, LabFault, Status};
use plain_text::plain;
use std::alloc::Global;

/// What is said of a page that is written: its file, and what to do with it.
pub(crate) fn page_answer(alloc: Global, path: &str) -> Result<CommandAnswer, LabFault> {
    let file = plain(alloc, path)?;
    let told = format!(in alloc; "{file}: open it in a browser\n")?;
    Ok(CommandAnswer::printed(alloc, told, Status::Done))
}
