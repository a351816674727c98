//! Diagnostics: what `check` says of a text.

use crate::documents::{Document, MOST_DOCUMENTS};
use crate::line_starts::DocumentLine;
use crate::ranges::{put_location, put_range};
use editor_wire::Json;
use fault_messages::{Message, Severity};
use plain_text::plural;
use source_cures::{CureFinder, Related};
use std::alloc::{AllocError, Global};

/// How many messages of a text are sent at most.
const MOST_SENT: usize = 500;

/// The number of the warning of what no stream comes to, which editors show paler.
const UNREACHED: u8 = 101;

/// The parameters that tell what `check` says of a text.
pub(crate) fn diagnostics_of(
    alloc: Global,
    document: &Document,
    messages: &[Message],
) -> Result<Json, AllocError> {
    let places = CureFinder::of(alloc, &document.ascii)?;
    let mut json = begun(alloc, document.uri.as_str(), document.version);
    for message in messages.iter().take(MOST_SENT) {
        let related = places.related(message)?;
        put_message(alloc, &mut json, document, message, related.as_ref())?;
    }
    let more = messages.len().saturating_sub(MOST_SENT);
    if more > 0 {
        let some_messages = plural(more);
        let words = format!(in alloc;
            "{more} more message{some_messages}: mta_lab check says all"
        )?;
        put_warning(&mut json, document.line(0), words.as_str());
    }
    json.close_list();
    json.close();
    Ok(json)
}

/// The parameters that tell nothing of a text which is no longer open.
pub(crate) fn no_diagnostics(alloc: Global, uri: &str) -> Json {
    let mut json = begun(alloc, uri, None);
    json.close_list();
    json.close();
    json
}

/// The parameters that tell that a text is not kept.
pub(crate) fn not_kept(alloc: Global, uri: &str, version: Option<i64>) -> Result<Json, AllocError> {
    let mut json = begun(alloc, uri, version);
    let words = format!(in alloc;
        "{MOST_DOCUMENTS} texts are open already: mta_lab does not check this one"
    )?;
    let line = DocumentLine {
        number: 0,
        start: 0,
        bytes: &[],
        mark: 0,
    };
    put_warning(&mut json, Some(line), words.as_str());
    json.close_list();
    json.close();
    Ok(json)
}

/// Parameters up to the begin of their list.
fn begun(alloc: Global, uri: &str, version: Option<i64>) -> Json {
    let mut json = Json::new(alloc);
    json.open();
    json.text_of("uri", uri);
    match version {
        Some(version) if version < 0 => json.negative_of("version", version.unsigned_abs()),
        Some(version) => json.number_of("version", version.unsigned_abs()),
        None => {}
    }
    json.open_list("diagnostics");
    json
}

/// Writes a message, with another place that it is about, if there is one.
pub(crate) fn put_message(
    alloc: Global,
    json: &mut Json,
    document: &Document,
    message: &Message,
    related: Option<&Related>,
) -> Result<(), AllocError> {
    json.open();
    put_place(json, document, message);
    json.number_of("severity", severity_number(message.severity));
    put_code(alloc, json, message)?;
    json.text_of("source", "mta_lab");
    put_words(alloc, json, message)?;
    if message.number == Some(UNREACHED) && message.severity == Severity::Warning {
        json.open_list("tags");
        json.number(1);
        json.close_list();
    }
    if let Some(place) = related {
        put_related(json, document, place);
    }
    json.close();
    Ok(())
}

/// Writes the part of a line that a message is about.
fn put_place(json: &mut Json, document: &Document, message: &Message) {
    let empty = DocumentLine {
        number: message.line.saturating_sub(1),
        start: 0,
        bytes: &[],
        mark: 0,
    };
    let line = document.line(empty.number).unwrap_or(empty);
    let start = message.column.saturating_sub(1);
    let end = start.saturating_add(message.width);
    put_range(json, "range", line, start, end);
}

/// Writes the number of a message, with an E before that of an error, if it has one.
fn put_code(alloc: Global, json: &mut Json, message: &Message) -> Result<(), AllocError> {
    if let Some(number) = message.number {
        let letter = match message.severity {
            Severity::Error => "E",
            Severity::Warning => "",
        };
        json.text_of("code", format!(in alloc; "{letter}{number}")?.as_str());
    }
    Ok(())
}

/// Writes the words of a message, and its help on a line of its own.
fn put_words(alloc: Global, json: &mut Json, message: &Message) -> Result<(), AllocError> {
    match &message.help {
        Some(help) => {
            let words = message.words.as_str();
            let help = help.as_str();
            json.text_of("message", format!(in alloc; "{words}\n{help}")?.as_str());
        }
        None => json.text_of("message", message.words.as_str()),
    }
    Ok(())
}

/// Writes another place that a message is about.
fn put_related(json: &mut Json, document: &Document, place: &Related) {
    json.open_list("relatedInformation");
    json.open();
    json.key("location");
    put_location(
        json,
        document,
        place.line.saturating_sub(1),
        place.column.saturating_sub(1),
        place.width,
    );
    json.text_of("message", place.words.as_str());
    json.close();
    json.close_list();
}

/// The protocol's number of a severity.
fn severity_number(severity: Severity) -> u64 {
    match severity {
        Severity::Error => 1,
        Severity::Warning => 2,
    }
}

/// Writes a warning at the begin of a line, if there is one.
fn put_warning(json: &mut Json, line: Option<DocumentLine>, words: &str) {
    if let Some(line) = line {
        json.open();
        put_range(json, "range", line, 0, 0);
        json.number_of("severity", 2);
        json.text_of("source", "mta_lab");
        json.text_of("message", words);
        json.close();
    }
}
