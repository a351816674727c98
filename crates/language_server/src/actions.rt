//! How messages may be mended: each fix as an action.

use crate::diagnostics::put_message;
use crate::documents::Document;
use crate::ranges::edits_value;
use editor_wire::Json;
use fault_messages::Message;
use source_cures::Fix;
use source_fixes::FixFinder;
use std::alloc::{AllocError, Global};

/// The fixes of the messages on the lines from the first to the last one, from 0; none where they are not asked for.
pub(crate) fn actions(
    alloc: Global,
    document: &Document,
    lines: (usize, usize),
    takes_fixes: bool,
) -> Result<Json, AllocError> {
    let mut json = Json::new(alloc);
    json.begin_list();
    if takes_fixes {
        match &document.messages {
            Some(messages) => put_actions(alloc, &mut json, document, messages, lines)?,
            None => {
                let messages = document.checked(alloc)?;
                put_actions(alloc, &mut json, document, &messages, lines)?;
            }
        }
    }
    json.close_list();
    Ok(json)
}

/// Writes the fixes of those messages that are on the lines.
fn put_actions(
    alloc: Global,
    json: &mut Json,
    document: &Document,
    messages: &[Message],
    lines: (usize, usize),
) -> Result<(), AllocError> {
    if !messages.iter().any(|message| is_on(message, lines)) {
        return Ok(());
    }
    let Some(mut finder) = FixFinder::of(alloc, &document.ascii)? else {
        return Ok(());
    };
    for message in messages {
        if is_on(message, lines) {
            for fix in &finder.fixes(message)? {
                put_action(alloc, json, document, message, fix)?;
            }
        }
    }
    Ok(())
}

/// Whether a message is on one of the lines from the first to the last one.
fn is_on(message: &Message, lines: (usize, usize)) -> bool {
    let (first, last) = lines;
    let line = message.line.saturating_sub(1);
    first <= line && line <= last
}

/// Writes a fix of a message.
fn put_action(
    alloc: Global,
    json: &mut Json,
    document: &Document,
    message: &Message,
    fix: &Fix,
) -> Result<(), AllocError> {
    json.open();
    json.text_of("title", fix.title.as_str());
    json.text_of("kind", "quickfix");
    json.open_list("diagnostics");
    put_message(alloc, json, document, message, None)?;
    json.close_list();
    json.key("edit");
    json.open();
    json.key("changes");
    json.open();
    json.value_of(
        document.uri.as_str(),
        &edits_value(alloc, document, &fix.edits),
    );
    json.close();
    json.close();
    json.close();
    Ok(())
}
