//! Messages about a file as JSON.

use crate::mendings::{fixes_list, related_list};
use command_parts::push_object;
use fault_messages::Message;
use lab_json::{List, Object, text_value};
use serde_json::Value;
use source_cures::CureFinder;
use source_fixes::FixFinder;
use std::alloc::{AllocError, Global};

/// Adds messages about a file that is no source text as objects: nothing is said of how to mend it.
pub(crate) fn push_objects(
    alloc: Global,
    out: &mut String,
    file: &str,
    messages: &[Message],
) -> Result<(), AllocError> {
    for message in messages {
        push_object_of(
            alloc,
            out,
            file,
            message,
            List::new(alloc),
            List::new(alloc),
        )?;
    }
    Ok(())
}

/// Adds messages about a source text as objects, with the fixes that mend the text and other places of it. The text is as
/// the assembler reads it.
pub(crate) fn push_source_objects(
    alloc: Global,
    out: &mut String,
    file: &str,
    text: &[u8],
    messages: &[Message],
) -> Result<(), AllocError> {
    if messages.is_empty() {
        return Ok(());
    }
    let mut finder = FixFinder::of(alloc, text)?;
    let places = CureFinder::of(alloc, text)?;
    for message in messages {
        let fixes = match &mut finder {
            Some(finder) => fixes_list(alloc, text, &finder.fixes(message)?),
            None => List::new(alloc),
        };
        let related = related_list(alloc, places.related(message)?);
        push_object_of(alloc, out, file, message, fixes, related)?;
    }
    Ok(())
}

/// Adds the object of a message about a file. What is wrong, and how it may be mended, are words for people.
fn push_object_of(
    alloc: Global,
    out: &mut String,
    file: &str,
    message: &Message,
    fixes: List,
    related: List,
) -> Result<(), AllocError> {
    let mut object = Object::of_kind(alloc, "message");
    object.put_text("file", file);
    object.put_number("line", message.line as u64);
    object.put_number("column", message.column as u64);
    object.put_number("width", message.width as u64);
    object.put_text("severity", message.severity.name());
    object.put("number", Ok(number_value(message)));
    object.put_text("message", &message.words);
    object.put("help", help_value(alloc, message));
    object.put("fixes", fixes.whole());
    object.put("related", related.whole());
    push_object(alloc, out, &object.whole()?)
}

/// The number of a message's page of `explain`; null if it has none.
fn number_value(message: &Message) -> Value {
    match message.number {
        Some(number) => Value::from(u64::from(number)),
        None => Value::Null,
    }
}

/// How what is wrong may be mended; null if nothing is said of it.
fn help_value(alloc: Global, message: &Message) -> Result<Value, AllocError> {
    match &message.help {
        Some(help) => text_value(alloc, help),
        None => Ok(Value::Null),
    }
}
