//! Objects and lists of JSON that are made piece by piece. Where memory is refused for a piece, it is missing, and `whole`
//! says so at the end; so a maker has one place to look, and not one a piece.

use crate::VERSION;
use crate::fields::Fields;
use serde_json::{Map, Value};
use std::alloc::{AllocError, Global};

/// An object that is being made.
#[derive(Drop)]
pub struct Object {
    alloc: Global,
    fields: Fields,
    lacks_fields: bool,
}

impl Object {
    /// The object without a field.
    pub fn new(alloc: Global) -> Object {
        Object::of(alloc, Map::new(alloc))
    }

    /// The object of these fields.
    pub fn of(alloc: Global, fields: Fields) -> Object {
        Object {
            alloc,
            fields,
            lacks_fields: false,
        }
    }

    /// The object of a kind, with its `version` and its `object`, as [`object_of`](crate::object_of) makes it.
    pub fn of_kind(alloc: Global, kind: &str) -> Object {
        let mut object = Object::new(alloc);
        object.put_number("version", VERSION);
        object.put_text("object", kind);
        object
    }

    /// Puts a field with a value, unless memory was refused for it.
    pub fn put(&mut self, name: &str, value: Result<Value, AllocError>) {
        let is_put = match value {
            Ok(value) => serde_json::put(&mut self.fields, self.alloc, name, value).is_ok(),
            Err(_) => false,
        };
        self.lacks_fields = self.lacks_fields || !is_put;
    }

    /// Puts a field with a number.
    pub fn put_number(&mut self, name: &str, number: u64) {
        self.put(name, Ok(Value::from(number)));
    }

    /// Puts a field with a text.
    pub fn put_text(&mut self, name: &str, text: &str) {
        self.put(name, text_value(self.alloc, text));
    }

    /// The object as it is, unless memory was refused for a field.
    pub fn whole(self) -> Result<Value, AllocError> {
        if self.lacks_fields {
            return Err(AllocError);
        }
        Ok(Value::Object(self.fields))
    }
}

/// A list that is being made.
#[derive(Drop)]
pub struct List {
    values: Vec<Value>,
    lacks_values: bool,
}

impl List {
    /// The list without a value.
    pub fn new(alloc: Global) -> List {
        List {
            values: Vec::new(alloc),
            lacks_values: false,
        }
    }

    /// Puts a value after the others, unless memory was refused for it.
    pub fn put(&mut self, value: Result<Value, AllocError>) {
        let is_put = match value {
            Ok(value) => self.values.push(value).is_ok(),
            Err(_) => false,
        };
        self.lacks_values = self.lacks_values || !is_put;
    }

    /// Puts a number after the others.
    pub fn put_number(&mut self, number: u64) {
        self.put(Ok(Value::from(number)));
    }

    /// The list as it is, unless memory was refused for a value.
    pub fn whole(self) -> Result<Value, AllocError> {
        if self.lacks_values {
            return Err(AllocError);
        }
        Ok(Value::Array(self.values))
    }
}

/// A text.
pub fn text_value(alloc: Global, text: &str) -> Result<Value, AllocError> {
    Ok(Value::String(String::from_str(alloc, text)?))
}
