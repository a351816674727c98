//! Messages that came in.

use crate::methods::{LanguageNotice, LanguageQuestion, notice_called, question_called};
use crate::parameters::Parameters;
use crate::refusals::RefusalKind;
use serde_json::Value;
use std::alloc::{AllocError, Global};

/// The id of a response where the request's own cannot be read.
const NO_ID: &str = "null";

/// What came in.
#[derive(Drop)]
pub enum Incoming {
    /// What has to be answered once.
    Request(Request),
    /// What is not answered.
    Notification(Notification),
}

/// What has to be answered once.
#[derive(Drop)]
pub struct Request {
    /// Its id as JSON; `null` where it has none that can be read.
    pub id: String,
    /// What it asks for, or why it can't be answered by itself.
    pub question: Result<LanguageQuestion, RefusalKind>,
    /// Its parameters.
    pub parameters: Parameters,
}

/// What is not answered.
#[derive(Drop)]
pub struct Notification {
    /// What it says; None where nothing is called so here.
    pub notice: Option<LanguageNotice>,
    /// Its parameters.
    pub parameters: Parameters,
}

/// What a message is. One that is no JSON, or no object, has to be answered by an error, and so has a request whose id is
/// neither a number nor a text. An answer to what was never asked is a notification that says nothing.
pub fn incoming_of(alloc: Global, message: Value) -> Result<Incoming, AllocError> {
    if message.is_null() {
        return refused(alloc, NO_ID, RefusalKind::NotJson, message);
    }
    let Some(method) = method_of(&message) else {
        return without_method(alloc, message);
    };
    let question = question_called(method);
    let notice = notice_called(method);
    let id = match message.get("id") {
        None => {
            return Ok(Incoming::Notification(Notification {
                notice,
                parameters: Parameters::of(message),
            }));
        }
        Some(id) if is_id(id) => id.to_string(alloc)?,
        Some(_) => return refused(alloc, NO_ID, RefusalKind::NotNow, message),
    };
    Ok(Incoming::Request(Request {
        id,
        question: question.ok_or(RefusalKind::NoMethod),
        parameters: Parameters::of(message),
    }))
}

/// The method of a message.
fn method_of(message: &Value) -> Option<&str> {
    message.get("method")?.as_str()
}

/// Whether a value may be an id.
fn is_id(value: &Value) -> bool {
    value.is_string() || value.is_u64() || value.is_i64()
}

/// What a message without a method is: an answer to what was never asked, or nothing of the protocol.
fn without_method(alloc: Global, message: Value) -> Result<Incoming, AllocError> {
    if message.get("method").is_none()
        && (message.get("result").is_some() || message.get("error").is_some())
    {
        return Ok(Incoming::Notification(Notification {
            notice: None,
            parameters: Parameters::of(message),
        }));
    }
    refused(alloc, NO_ID, RefusalKind::NotNow, message)
}

/// A message that is answered by an error.
fn refused(
    alloc: Global,
    id: &str,
    kind: RefusalKind,
    message: Value,
) -> Result<Incoming, AllocError> {
    Ok(Incoming::Request(Request {
        id: String::from_str(alloc, id)?,
        question: Err(kind),
        parameters: Parameters::of(message),
    }))
}
