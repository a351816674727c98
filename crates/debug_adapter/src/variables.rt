//! What stands in the places of a stream and of the memory.

use crate::adapter::Adapter;
use crate::refusals::Refusal;
use crate::scopes::{Container, container_of, word_reference};
use adapter_messages::DapRequest;
use editor_wire::Json;
use lab_texts::{NumberStyle, full_word, push_trap, push_value, push_word, wanted_word};
use processor::Step;
use serde_json::Value;
use step_views::{Content, Place, StreamPart};
use stream_core::Status;
use tag_memory::Word;

/// The most variables that are shown at once.
const MOST_VARIABLES: u64 = 4096;

/// Which parts of a stream the scope Status has, with their names.
const PARTS: [(&str, StreamPart); 7] = [
    ("status", StreamPart::Status),
    ("pc", StreamPart::Pc),
    ("codes", StreamPart::Codes),
    ("mask", StreamPart::Mask),
    ("in trap", StreamPart::InTrap),
    ("xr", StreamPart::TrapRegister),
    ("tries", StreamPart::Retries),
];

impl<'a, 'i, 't> Adapter<'a, 'i, 't> {
    /// The variables of a reference.
    pub(crate) fn variables(&self, request: &DapRequest, body: &mut Json) -> Result<(), Refusal> {
        let reference = request.number("variablesReference").unwrap_or(0);
        let Some(container) = container_of(reference) else {
            return Err(Refusal::Words("there is nothing of this reference"));
        };
        let style = style_of(request);
        body.open();
        body.open_list("variables");
        match container {
            Container::Registers(step) => self.push_registers(step, style, body)?,
            Container::Targets(step) => self.push_targets(step, body)?,
            Container::Status(step) => self.push_parts(step, style, body)?,
            Container::Memory => self.push_memory(request, style, body)?,
            Container::Word(word) => self.push_word_parts(word, style, body)?,
        }
        body.close_list();
        body.close();
        Ok(())
    }

    /// Adds the registers of a stream.
    fn push_registers(
        &self,
        step: Step,
        style: NumberStyle,
        body: &mut Json,
    ) -> Result<(), Refusal> {
        for number in 0..32u8 {
            let name = format!(in self.alloc; "r{number}")?;
            self.push_part(step, &name, StreamPart::Register(number), style, body)?;
        }
        Ok(())
    }

    /// Adds the target registers of a stream.
    fn push_targets(&self, step: Step, body: &mut Json) -> Result<(), Refusal> {
        for number in 0..8u8 {
            let name = format!(in self.alloc; "t{number}")?;
            let style = NumberStyle::Hexadecimal;
            self.push_part(step, &name, StreamPart::Target(number), style, body)?;
        }
        Ok(())
    }

    /// Adds the other parts of a stream, and what it waits for.
    fn push_parts(&self, step: Step, style: NumberStyle, body: &mut Json) -> Result<(), Refusal> {
        self.push_named_parts(step, &PARTS, style, body)?;
        if let Some(wait) = self.named.wait(step.p, step.s) {
            let wanted = wanted_word(wait.wanted);
            let mut text = String::from_str(self.alloc, "for ")?;
            self.names.push_address(&mut text, wait.address)?;
            write!(text, " to be {wanted}")?;
            push_variable(body, "waits", &text, 0);
        }
        Ok(())
    }

    /// Adds parts of a stream by their names.
    fn push_named_parts(
        &self,
        step: Step,
        parts: &[(&str, StreamPart)],
        style: NumberStyle,
        body: &mut Json,
    ) -> Result<(), Refusal> {
        for (name, part) in parts {
            self.push_part(step, name, *part, style, body)?;
        }
        Ok(())
    }

    /// Adds a part of a stream.
    fn push_part(
        &self,
        step: Step,
        name: &str,
        part: StreamPart,
        style: NumberStyle,
        body: &mut Json,
    ) -> Result<(), Refusal> {
        let place = Place::Stream {
            p: step.p,
            s: step.s,
            part,
        };
        let Some(content) = self.named.value(place) else {
            return Err(Refusal::Words("there is no such stream"));
        };
        let mut text = String::new(self.alloc);
        self.push_content(&mut text, style, part, content)?;
        push_variable(body, name, &text, 0);
        Ok(())
    }

    /// Adds what stands in a part of a stream.
    pub(crate) fn push_content(
        &self,
        out: &mut String,
        style: NumberStyle,
        part: StreamPart,
        content: Content,
    ) -> Result<(), Refusal> {
        match content {
            Content::Status(Status::Idle) => Ok(out.push_str("idle")?),
            Content::Status(Status::Running) => Ok(out.push_str("running")?),
            Content::Status(Status::Stopped(trap)) => {
                out.push_str("stopped by ")?;
                Ok(push_trap(out, trap)?)
            }
            Content::InTrap(is) => Ok(out.push_str(if is { "yes" } else { "no" })?),
            _ => {
                let number = content.number().unwrap_or(0);
                push_value(out, style, number)?;
                if let Ok(word) = u32::try_from(number)
                    && is_place(part, word)
                    && word < self.names.words()
                {
                    out.push_str(" ")?;
                    self.names.push_place(out, word)?;
                }
                Ok(())
            }
        }
    }

    /// Adds a page of the memory's words.
    fn push_memory(
        &self,
        request: &DapRequest,
        style: NumberStyle,
        body: &mut Json,
    ) -> Result<(), Refusal> {
        let words = self.named.session.machine().image().cells().len() as u64;
        let start = request.number("start").unwrap_or(0).min(words);
        let left = words.saturating_sub(start);
        let count = match request.number("count") {
            Some(count) if count > 0 => count.min(left),
            _ => left,
        };
        if count > MOST_VARIABLES && request.number("count").is_some() {
            return Err(Refusal::Words("at most 4096 words are shown at once"));
        }
        for index in 0..count.min(MOST_VARIABLES) {
            self.push_memory_word(start.saturating_add(index), style, body)?;
        }
        Ok(())
    }

    /// Adds a word of the memory, with the comment of its line.
    fn push_memory_word(
        &self,
        index: u64,
        style: NumberStyle,
        body: &mut Json,
    ) -> Result<(), Refusal> {
        let address = index.saturating_mul(8);
        let Some(word) = self.named.session.machine().word(address) else {
            return Ok(());
        };
        let place = format!(in self.alloc; "[{address}]")?;
        let mut name = String::new(self.alloc);
        self.names.push_address(&mut name, address)?;
        let mut text = String::new(self.alloc);
        push_word(&mut text, style, word)?;
        let comment = self.names.remark(address);
        if !comment.is_empty() {
            text.push_str("   ")?;
            text.push_str(comment)?;
        }
        body.open();
        body.text_of("name", &name);
        body.text_of("value", &text);
        body.text_of("evaluateName", &place);
        body.reference_of("memoryReference", address);
        body.number_of("variablesReference", word_reference(index));
        body.number_of("namedVariables", 5);
        body.close();
        Ok(())
    }

    /// Adds the parts of a word.
    fn push_word_parts(
        &self,
        index: u64,
        style: NumberStyle,
        body: &mut Json,
    ) -> Result<(), Refusal> {
        let address = index.saturating_mul(8);
        let Some(word) = self.named.session.machine().word(address) else {
            return Err(Refusal::Words("there is no word at this address"));
        };
        let mut value = String::new(self.alloc);
        push_value(&mut value, style, word.value())?;
        push_variable(body, "value", &value, 0);
        let full = full_word(word.is_full());
        push_variable(body, "full/empty", full, 0);
        push_other_tags(body, word);
        Ok(())
    }

    /// What a variable's name means as a word: of a part of a word, its address is put before.
    pub(crate) fn word_name_of(&self, request: &DapRequest, name: &str) -> Result<String, Refusal> {
        let reference = request.number("variablesReference").unwrap_or(0);
        let Some(Container::Word(index)) = container_of(reference) else {
            return Ok(String::from_str(self.alloc, name)?);
        };
        let address = index.saturating_mul(8);
        if name == "value" {
            Ok(format!(in self.alloc; "[{address}]")?)
        } else {
            Ok(format!(in self.alloc; "[{address}] {name}")?)
        }
    }
}

/// Adds the other bits of a word.
fn push_other_tags(body: &mut Json, word: Word) {
    push_variable(body, "forward", bit(word.is_forward()), 0);
    push_variable(body, "trap0", bit(word.has_trap0()), 0);
    push_variable(body, "trap1", bit(word.has_trap1()), 0);
}

/// A bit as text.
fn bit(is: bool) -> &'static str {
    if is { "1" } else { "0" }
}

/// Whether a number in a part of a stream is a place of the program.
fn is_place(part: StreamPart, number: u32) -> bool {
    match part {
        StreamPart::Pc => true,
        StreamPart::Target(_) => number != 0,
        _ => false,
    }
}

/// Adds a variable.
fn push_variable(body: &mut Json, name: &str, value: &str, reference: u64) {
    body.open();
    body.text_of("name", name);
    body.text_of("value", value);
    body.number_of("variablesReference", reference);
    body.close();
}

/// How a request wants numbers.
pub(crate) fn style_of(request: &DapRequest) -> NumberStyle {
    let hex = match request.argument("format") {
        Some(format) => format.get("hex").and_then(Value::as_bool) == Some(true),
        None => false,
    };
    if hex {
        NumberStyle::Hexadecimal
    } else {
        NumberStyle::Decimal
    }
}
