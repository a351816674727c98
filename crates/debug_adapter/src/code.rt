//! The program: its source, its lines, its words.

use crate::adapter::Adapter;
use crate::memory::whole_number;
use crate::refusals::Refusal;
use adapter_messages::DapRequest;
use editor_wire::Json;
use plain_text::file_name;
use serde_json::Value;

/// The most instructions that are shown at once.
const MOST_INSTRUCTIONS: i64 = 10_000;

impl<'a, 'i, 't> Adapter<'a, 'i, 't> {
    /// Adds where the program's text is, under this name: its file, or the listing that the client may ask for.
    pub(crate) fn push_source(&self, name: &str, body: &mut Json) {
        body.key(name);
        body.open();
        body.text_of("name", file_name(self.origin.path));
        if self.origin.listing.is_some() {
            body.number_of("sourceReference", 1);
        } else {
            body.text_of("path", self.origin.path);
        }
        body.close();
    }

    /// Whether a request's source is the program's.
    pub(crate) fn is_our_source(&self, request: &DapRequest) -> bool {
        let Some(source) = request.argument("source") else {
            return false;
        };
        let path = source.get("path").and_then(Value::as_str);
        let name = source.get("name").and_then(Value::as_str);
        let ours = file_name(self.origin.path);
        match path.or(name) {
            Some(text) => file_name(text) == ours,
            None => source.get("sourceReference").and_then(Value::as_u64) == Some(1),
        }
    }

    /// The text of the listing.
    pub(crate) fn source(&self, body: &mut Json) -> Result<(), Refusal> {
        let Some(listing) = self.origin.listing else {
            return Err(Refusal::Words("the source is a file"));
        };
        body.open();
        body.text_of("content", listing);
        body.close();
        Ok(())
    }

    /// The line of a program word as the client counts.
    pub(crate) fn client_line(&self, word: u32) -> u64 {
        let line = self.names.line(word) as u64;
        line.saturating_add(self.origin.client.first_line)
            .saturating_sub(1)
    }

    /// The first program word on a line of the client or after it.
    pub(crate) fn word_of_client_line(&self, line: u64) -> Option<u32> {
        let line = line
            .saturating_add(1)
            .saturating_sub(self.origin.client.first_line);
        self.named.word_of_line(line as usize)
    }

    /// The places that `goto` can go to from a line: the program word on it or after it.
    pub(crate) fn goto_targets(
        &self,
        request: &DapRequest,
        body: &mut Json,
    ) -> Result<(), Refusal> {
        body.open();
        body.open_list("targets");
        let line = request.number("line").unwrap_or(0);
        if self.is_our_source(request)
            && let Some(word) = self.word_of_client_line(line)
        {
            let mut label = String::new(self.alloc);
            self.names.push_place(&mut label, word)?;
            body.open();
            body.number_of("id", u64::from(word));
            body.text_of("label", &label);
            body.number_of("line", self.client_line(word));
            body.reference_of("instructionPointerReference", u64::from(word));
            body.close();
        }
        body.close_list();
        body.close();
        Ok(())
    }

    /// Program words around a place. Those that the program doesn't have are shown as no instructions.
    pub(crate) fn disassemble(&self, request: &DapRequest, body: &mut Json) -> Result<(), Refusal> {
        let Some(place) = request.text("memoryReference").and_then(read_reference) else {
            return Err(Refusal::Words("this is no address of the program"));
        };
        let count = whole_number(request, "instructionCount")?;
        if count > MOST_INSTRUCTIONS {
            return Err(Refusal::Words("at most 10000 instructions are shown at once"));
        }
        let first = i64::try_from(place)
            .unwrap_or(i64::MAX)
            .saturating_add(whole_number(request, "offset")?)
            .saturating_add(whole_number(request, "instructionOffset")?);
        body.open();
        body.open_list("instructions");
        for index in 0..count {
            self.push_instruction(first.saturating_add(index), body)?;
        }
        body.close_list();
        body.close();
        Ok(())
    }

    /// Adds a program word.
    fn push_instruction(&self, number: i64, body: &mut Json) -> Result<(), Refusal> {
        match u32::try_from(number) {
            Ok(word) if word < self.names.words() => self.push_program_line(word, body),
            _ => self.push_outer_line(number, body),
        }
    }

    /// Adds a word that the program has: its place, its instruction, and where that stands.
    fn push_program_line(&self, word: u32, body: &mut Json) -> Result<(), Refusal> {
        let mut symbol = String::new(self.alloc);
        self.names.push_place(&mut symbol, word)?;
        body.open();
        body.reference_of("address", u64::from(word));
        body.text_of("instruction", self.names.statement(word));
        body.text_of("symbol", &symbol);
        self.push_source("location", body);
        body.number_of("line", self.client_line(word));
        body.close();
        Ok(())
    }

    /// Adds a place that the program doesn't have.
    fn push_outer_line(&self, number: i64, body: &mut Json) -> Result<(), Refusal> {
        let address = format!(in self.alloc; "{number}")?;
        body.open();
        body.text_of("address", &address);
        body.text_of("instruction", "no word of the program");
        body.text_of("presentationHint", "invalid");
        body.close();
        Ok(())
    }
}

/// The number of a reference: decimal, or after `0x` hexadecimal, perhaps in brackets.
pub(crate) fn read_reference(text: &str) -> Option<u64> {
    let text = text.trim();
    let inner = match text.strip_prefix("[") {
        Some(rest) => rest.strip_suffix("]")?,
        None => text,
    };
    match inner.strip_prefix("0x") {
        Some(digits) => u64::from_str_radix(digits, 16).ok(),
        None => inner.parse::<u64>().ok(),
    }
}
