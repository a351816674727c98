//! The page of a graph.

use crate::parts::{push_head, push_middle, push_tail};
use replay_page::{push_escaped, push_script_data};
use std::alloc::{AllocError, Global};

/// The page of a graph that is given as JSON, with this title. All that a program brings along stays text, as in the
/// page of a run.
pub fn page_of_graph(alloc: Global, title: &str, graph: &str) -> Result<String, AllocError> {
    let mut page = String::new(alloc);
    push_head(&mut page)?;
    push_escaped(&mut page, title)?;
    push_middle(&mut page)?;
    push_script_data(&mut page, graph)?;
    push_tail(&mut page)?;
    Ok(page)
}
