//! All that is said of a source text.

use crate::names::add_names;
use crate::slips::add_slips;
use crate::source_text::SourceText;
use fault_messages::Message;
use std::alloc::{AllocError, Global};

/// What is to be said of a source text: its faults, and what is likely not meant.
pub fn source_messages(alloc: Global, source: &SourceText) -> Result<Vec<Message>, AllocError> {
    let mut messages = source.messages(alloc)?;
    add_slips(alloc, source.ascii(), &mut messages)?;
    add_names(alloc, source.ascii(), &mut messages)?;
    Ok(messages)
}
