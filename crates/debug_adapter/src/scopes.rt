//! What can be looked at of a stream, and references to it.

use crate::adapter::Adapter;
use crate::refusals::Refusal;
use crate::streams::{stream_of_id, thread_id};
use adapter_messages::DapRequest;
use editor_wire::Json;
use processor::Step;

/// The first reference to the registers of streams; the thread's number is added.
const REGISTERS: u64 = 0x1_0000;

/// The first reference to the target registers of streams.
const TARGETS: u64 = 0x2_0000;

/// The first reference to the other parts of streams.
const STATUS: u64 = 0x3_0000;

/// The reference to the memory.
const MEMORY: u64 = 0x4_0000;

/// The first reference to words of the memory; the word's number is added.
const WORDS: u64 = 0x10_0000;

/// What a reference means.
#[derive(Clone, Copy)]
pub(crate) enum Container {
    /// The registers of a stream.
    Registers(Step),
    /// Its target registers.
    Targets(Step),
    /// Its other parts.
    Status(Step),
    /// All words of the memory.
    Memory,
    /// The parts of the word of this number.
    Word(u64),
}

/// What a reference means; None where it means nothing.
pub(crate) fn container_of(reference: u64) -> Option<Container> {
    if reference >= WORDS {
        return Some(Container::Word(reference - WORDS));
    }
    if reference == MEMORY {
        return Some(Container::Memory);
    }
    let step = stream_of_id(reference % 0x1_0000)?;
    match reference - reference % 0x1_0000 {
        REGISTERS => Some(Container::Registers(step)),
        TARGETS => Some(Container::Targets(step)),
        STATUS => Some(Container::Status(step)),
        _ => None,
    }
}

/// The reference to a word of the memory, by its number.
pub(crate) fn word_reference(word: u64) -> u64 {
    WORDS.saturating_add(word)
}

impl<'a, 'i, 't> Adapter<'a, 'i, 't> {
    /// The scopes of a frame.
    pub(crate) fn scopes(&self, request: &DapRequest, body: &mut Json) -> Result<(), Refusal> {
        let step = self.stream_of(request.number("frameId").unwrap_or(0))?;
        let id = thread_id(step);
        let words = self.named.session.machine().image().cells().len() as u64;
        body.open();
        body.open_list("scopes");
        push_scope(body, "Registers", REGISTERS.saturating_add(id), None);
        push_scope(body, "Targets", TARGETS.saturating_add(id), None);
        push_scope(body, "Status", STATUS.saturating_add(id), None);
        push_scope(body, "Memory", MEMORY, Some(words));
        body.close_list();
        body.close();
        Ok(())
    }
}

/// Adds a scope; with how many words it has, where those are asked for page by page.
fn push_scope(body: &mut Json, name: &str, reference: u64, words: Option<u64>) {
    body.open();
    body.text_of("name", name);
    body.number_of("variablesReference", reference);
    if let Some(words) = words {
        body.number_of("indexedVariables", words);
    }
    body.truth_of("expensive", false);
    body.close();
}
