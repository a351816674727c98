//! What may be written at a place.

use crate::documents::{Document, LinePlace};
use crate::line_starts::DocumentLine;
use crate::operands::{OperandKind, operand_kind};
use crate::ranges::put_range;
use asm_line::{Directive, names};
use asm_text::outline_of;
use editor_wire::Json;
use insn_word::{Access, ArithmeticOp, Condition, ControlOp, MemoryOp, Profile, WideOp};
use source_edits::{WordRole, comment_column, words_of};
use source_places::SourcePlaces;
use std::alloc::{AllocError, Global};
use std::str;

/// The directives.
const DIRECTIVES: [Directive; 9] = [
    Directive::Profile,
    Directive::Slim,
    Directive::Chain,
    Directive::Retry,
    Directive::Trap,
    Directive::Entry,
    Directive::Word,
    Directive::Data,
    Directive::Fill,
];

/// The protocol's numbers of what is completed: a keyword, a member of an enumeration, a reference, a variable.
const KEYWORD: u64 = 14;

const MEMBER: u64 = 20;

const REFERENCE: u64 = 18;

const VARIABLE: u64 = 6;

/// The names that may be written at a place. Each takes the place of the word there.
#[derive(Drop)]
struct Items<'t> {
    json: Json,
    line: DocumentLine<'t>,
    /// Where the word begins.
    start: usize,
    /// Where it ends.
    end: usize,
}

impl Items<'_> {
    /// Adds a name of a kind.
    fn put(&mut self, kind: u64, name: &str) {
        self.put_both(kind, name, "");
    }

    /// Adds a name with its suffix.
    fn put_both(&mut self, kind: u64, name: &str, suffix: &str) {
        let json = &mut self.json;
        json.open();
        json.joined_of("label", name, suffix);
        json.number_of("kind", kind);
        json.key("textEdit");
        json.open();
        put_range(json, "range", self.line, self.start, self.end);
        json.joined_of("newText", name, suffix);
        json.close();
        json.close();
    }
}

/// What may be written at a place: an operation or a directive, a condition, a label or a register.
pub(crate) fn completion(
    alloc: Global,
    document: &Document,
    place: LinePlace,
) -> Result<Json, AllocError> {
    let mut items = begun(alloc, document, place);
    let line = place.line.bytes;
    let is_comment = comment_column(line).is_some_and(|column| column < place.column);
    if !is_comment {
        let mut front = Vec::from_slice(alloc, line.get(..place.column).unwrap_or(line))?;
        front.push(b'x')?;
        put_fitting(alloc, &mut items, document, &front)?;
    }
    let mut json = items.json;
    json.close_list();
    json.close();
    Ok(json)
}

/// The begin of a list of items at a place.
fn begun<'t>(alloc: Global, document: &'t Document, place: LinePlace) -> Items<'t> {
    let mut json = Json::new(alloc);
    json.open();
    json.truth_of("isIncomplete", false);
    json.open_list("items");
    let empty = DocumentLine {
        number: place.line.number,
        start: 0,
        bytes: &[],
        mark: 0,
    };
    Items {
        json,
        line: document.line(place.line.number).unwrap_or(empty),
        start: place.column,
        end: end_of_word(place.line.bytes, place.column),
    }
}

/// Where the word ends that goes on at a place of a line.
fn end_of_word(line: &[u8], column: usize) -> usize {
    let rest = line.get(column..).unwrap_or(&[]);
    let more = rest
        .iter()
        .position(|byte| !is_of_word(*byte))
        .unwrap_or(rest.len());
    column.saturating_add(more)
}

/// Whether a byte may stand in a name with a suffix.
fn is_of_word(byte: u8) -> bool {
    byte.is_ascii_alphanumeric() || byte == b'_' || byte == b'.'
}

/// Adds the names that fit where the last word of this front of a line stands, which ends with one letter more.
fn put_fitting(
    alloc: Global,
    items: &mut Items<'_>,
    document: &Document,
    front: &[u8],
) -> Result<(), AllocError> {
    let words = words_of(alloc, front)?;
    let Some(word) = words.last() else {
        return Ok(());
    };
    items.start = word.column;
    match word.role {
        WordRole::Head if word.bytes.starts_with(b".") => {
            put_directives(items, profile_of(alloc, document)?);
        }
        WordRole::Head => put_operations(items, profile_of(alloc, document)?),
        WordRole::Operand { head, place } => {
            put_operands(alloc, items, document, operand_kind(head, place))?;
        }
        WordRole::Label | WordRole::Lookahead => {}
    }
    Ok(())
}

/// The profile of a text.
fn profile_of(alloc: Global, document: &Document) -> Result<Profile, AllocError> {
    let outline = outline_of(alloc, &document.ascii)?;
    Ok(outline.profile)
}

/// Adds the directives of a profile.
fn put_directives(items: &mut Items, profile: Profile) {
    for directive in &DIRECTIVES {
        if profile == Profile::Two || *directive != Directive::Chain {
            items.put(KEYWORD, names::directive(*directive));
        }
    }
}

/// Adds the operations of a profile, with their suffixes.
fn put_operations(items: &mut Items, profile: Profile) {
    for op in &MemoryOp::ALL {
        if *op != MemoryOp::Nop
            && (profile == Profile::Two || MemoryOp::IN_PROFILE_ONE.contains(op))
        {
            put_memory(items, *op);
        }
    }
    for op in &ArithmeticOp::ALL {
        if *op != ArithmeticOp::Nop {
            items.put(KEYWORD, names::arithmetic(*op));
            items.put_both(KEYWORD, names::arithmetic(*op), names::test(true));
        }
    }
    for op in &ControlOp::ALL {
        items.put(KEYWORD, names::control(*op));
    }
    for op in &WideOp::ALL {
        items.put(KEYWORD, names::wide(*op));
    }
}

/// Adds a memory operation, with its suffixes where it may have one.
fn put_memory(items: &mut Items, op: MemoryOp) {
    match op {
        MemoryOp::Load | MemoryOp::Store | MemoryOp::FetchAdd => {
            for access in &Access::ALL {
                items.put_both(KEYWORD, names::memory(op), names::access(*access));
            }
        }
        MemoryOp::Nop | MemoryOp::TagGet | MemoryOp::TagSet | MemoryOp::Purge => {
            items.put(KEYWORD, names::memory(op));
        }
    }
}

/// Adds what an operand of a kind may be.
fn put_operands(
    alloc: Global,
    items: &mut Items<'_>,
    document: &Document,
    kind: OperandKind,
) -> Result<(), AllocError> {
    match kind {
        OperandKind::Condition => {
            for condition in &Condition::ALL {
                items.put(MEMBER, names::condition(*condition));
            }
        }
        OperandKind::Register => put_numbered(alloc, items, "r", 32)?,
        OperandKind::Target => put_numbered(alloc, items, "t", 8)?,
        OperandKind::Label => put_labels(alloc, items, document)?,
        OperandKind::Number => {}
    }
    Ok(())
}

/// Adds so many registers, from 0.
fn put_numbered(
    alloc: Global,
    items: &mut Items<'_>,
    letter: &str,
    count: u8,
) -> Result<(), AllocError> {
    for number in 0..count {
        let digits = format!(in alloc; "{number}")?;
        items.put_both(VARIABLE, letter, digits.as_str());
    }
    Ok(())
}

/// Adds the labels of a text.
fn put_labels(alloc: Global, items: &mut Items<'_>, document: &Document) -> Result<(), AllocError> {
    let places = SourcePlaces::of(alloc, &document.ascii)?;
    for label in places.labels() {
        items.put(REFERENCE, str::from_utf8(label.name).unwrap_or("?"));
    }
    Ok(())
}
