//! Requests, read from the values of messages.

use crate::commands::{DapCommand, dap_command};
use serde_json::Value;
use std::alloc::{AllocError, Global};

/// A request of the client.
#[derive(Drop)]
pub struct DapRequest {
    /// Its number.
    pub seq: u64,
    /// What it asks for; empty where it doesn't say so.
    pub command: String,
    /// The same as a command; None where there is no such one here.
    pub kind: Option<DapCommand>,
    message: Value,
}

/// The request of a message. A message that is none has an empty command, and 0 for a number that it lacks.
pub fn read_request(alloc: Global, message: Value) -> Result<DapRequest, AllocError> {
    let seq = message.get("seq").and_then(Value::as_u64).unwrap_or(0);
    let name = command_in(&message);
    let kind = dap_command(name);
    let command = String::from_str(alloc, name)?;
    Ok(DapRequest {
        seq,
        command,
        kind,
        message,
    })
}

/// The command of a request; empty where the value is none.
fn command_in(message: &Value) -> &str {
    match text_in(message, "type") {
        Some("request") => text_in(message, "command").unwrap_or(""),
        _ => "",
    }
}

/// A member that is a text.
fn text_in<'v>(value: &'v Value, name: &str) -> Option<&'v str> {
    value.get(name).and_then(Value::as_str)
}

impl DapRequest {
    /// An argument; None where there is none of this name.
    pub fn argument(&self, name: &str) -> Option<&Value> {
        self.message.get("arguments")?.get(name)
    }

    /// An argument that is a text.
    pub fn text(&self, name: &str) -> Option<&str> {
        self.argument(name)?.as_str()
    }

    /// An argument, unless it is null; None where it is left out.
    fn given(&self, name: &str) -> Option<&Value> {
        match self.argument(name) {
            None | Some(Value::Null) => None,
            Some(value) => Some(value),
        }
    }

    /// An argument that is a text, or `usual` where it is left out; None where it is something else.
    pub fn text_or<'r>(&'r self, name: &str, usual: &'r str) -> Option<&'r str> {
        match self.given(name) {
            Some(value) => value.as_str(),
            None => Some(usual),
        }
    }

    /// An argument that is a natural number, or `usual` where it is left out; None where it is something else.
    pub fn number_or(&self, name: &str, usual: u64) -> Option<u64> {
        match self.given(name) {
            Some(value) => value.as_u64(),
            None => Some(usual),
        }
    }

    /// An argument that is true or false, or false where it is left out; None where it is something else.
    pub fn is_true(&self, name: &str) -> Option<bool> {
        match self.given(name) {
            Some(value) => value.as_bool(),
            None => Some(false),
        }
    }

    /// An argument that is a natural number.
    pub fn number(&self, name: &str) -> Option<u64> {
        self.argument(name)?.as_u64()
    }

    /// An argument that is a whole number within 2^63 of 0, or 0 where it is left out; None where it is something else.
    pub fn integer(&self, name: &str) -> Option<i64> {
        match self.given(name) {
            Some(value) => value.as_i64(),
            None => Some(0),
        }
    }

    /// An argument that is true or false; None where there is none.
    pub fn truth(&self, name: &str) -> Option<bool> {
        self.argument(name)?.as_bool()
    }

    /// An argument that is a list; empty where there is none.
    pub fn list(&self, name: &str) -> &[Value] {
        match self.argument(name).and_then(Value::as_array) {
            Some(list) => list.as_slice(),
            None => &[],
        }
    }
}
