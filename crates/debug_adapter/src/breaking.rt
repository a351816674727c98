//! The client's breakpoints.

use crate::adapter::Adapter;
use crate::refusals::Refusal;
use adapter_messages::DapRequest;
use debug_commands::{Answer, Command};
use editor_wire::Json;
use serde_json::Value;

/// The most breakpoints of a kind; each may be a point a processor.
const MOST_BREAKPOINTS: usize = 1024;

/// The members by which a breakpoint asks for more than to stop at each step or write there.
const CONDITIONS: [&str; 3] = ["condition", "hitCondition", "logMessage"];

/// What is said of a breakpoint that has one of these.
const NO_CONDITION: &str = "conditions, hit counts and log messages are not used: take them away";

/// The kinds of breakpoints, each of which is set as a whole.
#[derive(Clone, Copy, PartialEq, Eq)]
pub(crate) enum PointKind {
    /// On lines.
    Line,
    /// On places of the program, by name.
    Function,
    /// On words of the memory.
    Data,
}

/// A point of the session that a breakpoint made.
#[derive(Clone, Copy)]
pub(crate) struct KnownPoint {
    /// Its key in the session.
    pub key: u64,
    /// The breakpoint's number.
    pub breakpoint: u64,
    /// The breakpoint's kind.
    pub kind: PointKind,
}

impl<'a, 'i, 't> Adapter<'a, 'i, 't> {
    /// The point of a key.
    pub(crate) fn known_point(&self, key: u64) -> Option<KnownPoint> {
        for point in &self.points {
            if point.key == key {
                return Some(*point);
            }
        }
        None
    }

    /// Takes away the breakpoints of a kind.
    fn clear_points(&mut self, kind: PointKind) -> Result<(), Refusal> {
        let mut kept = Vec::new(self.alloc);
        for point in &self.points {
            if point.kind == kind {
                let _ = self.named.session.command(&Command::Delete(point.key));
            } else {
                kept.push(*point)?;
            }
        }
        self.points = kept;
        Ok(())
    }

    /// Makes a point of a breakpoint.
    fn add_point(
        &mut self,
        kind: PointKind,
        breakpoint: u64,
        command: &Command,
    ) -> Result<(), Refusal> {
        if let Answer::Point(key) = self.named.session.command(command)? {
            self.points.push(KnownPoint {
                key,
                breakpoint,
                kind,
            })?;
        }
        Ok(())
    }

    /// The number of a new breakpoint.
    fn new_number(&mut self) -> u64 {
        let number = self.next_breakpoint;
        self.next_breakpoint = number.saturating_add(1);
        number
    }

    /// Makes a breakpoint where a stream of any processor is to step at a program word, and adds it to the body's list.
    fn break_at(&mut self, kind: PointKind, word: u32, body: &mut Json) -> Result<(), Refusal> {
        let number = self.new_number();
        for p in 0..self.named.session.machine().image().processors() {
            self.add_point(kind, number, &Command::Break(p as u8, word))?;
        }
        body.open();
        body.number_of("id", number);
        body.truth_of("verified", true);
        self.push_source("source", body);
        body.number_of("line", self.client_line(word));
        body.close();
        Ok(())
    }

    /// Sets the breakpoints on lines.
    pub(crate) fn set_breakpoints(
        &mut self,
        request: &DapRequest,
        body: &mut Json,
    ) -> Result<(), Refusal> {
        self.clear_points(PointKind::Line)?;
        let is_ours = self.is_our_source(request);
        body.open();
        body.open_list("breakpoints");
        for (index, wanted) in request.list("breakpoints").iter().enumerate() {
            let line = wanted.get("line").and_then(Value::as_u64).unwrap_or(0);
            match self.word_of_client_line(line) {
                Some(_) if is_ours && has_condition(wanted) => push_unverified(body, NO_CONDITION),
                Some(word) if is_ours && index < MOST_BREAKPOINTS => self.break_at(
                    PointKind::Line,
                    word,
                    body,
                )?,
                Some(_) if is_ours => push_unverified(body, "there are too many breakpoints"),
                Some(_) => push_unverified(body, "this is not the program's source"),
                None => push_unverified(body, "no instruction is on this line or after it"),
            }
        }
        body.close_list();
        body.close();
        Ok(())
    }

    /// Sets the breakpoints on places by name, as `word_of_place` reads them.
    pub(crate) fn set_function_breakpoints(
        &mut self,
        request: &DapRequest,
        body: &mut Json,
    ) -> Result<(), Refusal> {
        self.clear_points(PointKind::Function)?;
        body.open();
        body.open_list("breakpoints");
        for (index, wanted) in request.list("breakpoints").iter().enumerate() {
            let name = wanted.get("name").and_then(Value::as_str).unwrap_or("");
            match self.named.word_of_place(name.trim()) {
                Some(_) if has_condition(wanted) => push_unverified(body, NO_CONDITION),
                Some(word) if index < MOST_BREAKPOINTS => self.break_at(
                    PointKind::Function,
                    word,
                    body,
                )?,
                Some(_) => push_unverified(body, "there are too many breakpoints"),
                None => push_unverified(body, "the program has no such label or line"),
            }
        }
        body.close_list();
        body.close();
        Ok(())
    }

    /// Sets the breakpoints on words of the memory.
    pub(crate) fn set_data_breakpoints(
        &mut self,
        request: &DapRequest,
        body: &mut Json,
    ) -> Result<(), Refusal> {
        self.clear_points(PointKind::Data)?;
        body.open();
        body.open_list("breakpoints");
        for (index, wanted) in request.list("breakpoints").iter().enumerate() {
            let text = wanted.get("dataId").and_then(Value::as_str).unwrap_or("");
            match self.watch_of(text) {
                Some(_) if has_condition(wanted) => push_unverified(body, NO_CONDITION),
                Some(command) if index < MOST_BREAKPOINTS => self.watch(&command, body)?,
                Some(_) => push_unverified(body, "there are too many breakpoints"),
                None => push_unverified(body, "there is no such word"),
            }
        }
        body.close_list();
        body.close();
        Ok(())
    }

    /// Makes a breakpoint on a word, and adds it to the body's list.
    fn watch(&mut self, command: &Command, body: &mut Json) -> Result<(), Refusal> {
        let number = self.new_number();
        self.add_point(PointKind::Data, number, command)?;
        body.open();
        body.number_of("id", number);
        body.truth_of("verified", true);
        body.close();
        Ok(())
    }

    /// What watches the word of a text: `[8]`, `[8] total` or `total` for its value and tags, with `full/empty` after it for
    /// its tags.
    fn watch_of(&self, text: &str) -> Option<Command> {
        let (name, is_tags) = match text.trim().strip_suffix("full/empty") {
            Some(name) => (name.trim(), true),
            None => (text.trim(), false),
        };
        let address = self.names.address_of(in_brackets(name))?;
        let _there = self.named.session.machine().word(address)?;
        Some(if is_tags {
            Command::WatchTags(address)
        } else {
            Command::Watch(address)
        })
    }

    /// Sets which steps are exceptions.
    pub(crate) fn set_exception_breakpoints(
        &mut self,
        request: &DapRequest,
        body: &mut Json,
    ) -> Result<(), Refusal> {
        self.conditions.traps = false;
        self.conditions.blocked = false;
        body.open();
        body.open_list("breakpoints");
        for filter in request.list("filters") {
            match filter.as_str() {
                Some("traps") => self.conditions.traps = true,
                Some("blocked") => self.conditions.blocked = true,
                _ => {
                    push_unverified(body, "there is no such filter");
                    continue;
                }
            }
            body.open();
            body.truth_of("verified", true);
            body.close();
        }
        body.close_list();
        body.close();
        Ok(())
    }

    /// What a data breakpoint on a variable would be.
    pub(crate) fn data_breakpoint_info(
        &self,
        request: &DapRequest,
        body: &mut Json,
    ) -> Result<(), Refusal> {
        let name = request.text("name").unwrap_or("");
        let text = self.word_name_of(request, name)?;
        body.open();
        let is_of_list = request.number("variablesReference").unwrap_or(0) > 0;
        let is_word = text.starts_with('[') || !is_of_list;
        if !is_word || self.watch_of(&text).is_none() {
            body.null_of("dataId");
            body.text_of("description", "only words of the memory are watched");
            body.close();
            return Ok(());
        }
        body.text_of("dataId", &text);
        body.text_of("description", &text);
        body.open_list("accessTypes");
        body.text("write");
        body.close_list();
        body.truth_of("canPersist", true);
        body.close();
        Ok(())
    }
}

/// The part of a text in brackets that it begins with, where it does, as of `[8] total`; else all.
fn in_brackets(text: &str) -> &str {
    match text.split_once(']') {
        Some((front, _)) if text.starts_with('[') => {
            text.get(..front.len().saturating_add(1)).unwrap_or(text)
        }
        _ => text,
    }
}

/// Whether a breakpoint is to stop only sometimes, or to print something.
fn has_condition(wanted: &Value) -> bool {
    CONDITIONS.iter().any(|member| {
        let text = wanted.get(*member).and_then(Value::as_str).unwrap_or("");
        !text.trim().is_empty()
    })
}

/// Adds a breakpoint that stops nowhere, and why.
fn push_unverified(body: &mut Json, words: &str) {
    body.open();
    body.truth_of("verified", false);
    body.text_of("message", words);
    body.close();
}
