//! Where a page opens.

use processor::Step;
use schedule_turns::{push_link_turns, turns_of};
use serde_json::Value;
use std::alloc::{AllocError, Global};
use std::fmt::Write;

/// The data of a page that opens after some steps, as JSON: `"opened":"0.0x2,1.0"`, as in a link, and then the members of
/// the data.
pub(crate) fn text_opened_after(
    alloc: Global,
    graph: &Value,
    steps: &[Step],
) -> Result<String, AllocError> {
    let turns = turns_of(alloc, steps)?;
    let mut text = String::from_str(alloc, "{\"opened\":\"")?;
    push_link_turns(&mut text, &turns)?;
    text.push_str("\"")?;
    if let Value::Object(members) = graph {
        for (name, value) in members.iter() {
            write!(text, ",\"{name}\":{value}")?;
        }
    }
    text.push_str("}")?;
    Ok(text)
}
