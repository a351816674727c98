//! Where labels stand and are used, and other names for them.

use crate::documents::{Document, LinePlace};
use crate::ranges::{edits_value, put_location};
use editor_wire::Json;
use language_messages::Refusal;
use source_edits::{NamePlace, RenameFault, declares, name_on, places_of_name, rename_edits};
use std::alloc::{AllocError, Global};

/// The places of the label that stands or is used at a place; none where there is no label.
pub(crate) fn places_at(
    alloc: Global,
    document: &Document,
    place: LinePlace,
) -> Result<Vec<NamePlace>, AllocError> {
    let Some(word) = name_on(alloc, place.line.bytes, place.column)? else {
        return Ok(Vec::new(alloc));
    };
    let places = places_of_name(alloc, &document.ascii, word.bytes)?;
    if declares(&places) {
        Ok(places)
    } else {
        Ok(Vec::new(alloc))
    }
}

/// Where the label of a place stands; null where there is none.
pub(crate) fn definition(
    alloc: Global,
    document: &Document,
    place: LinePlace,
) -> Result<Json, AllocError> {
    let places = places_at(alloc, document, place)?;
    let mut json = Json::new(alloc);
    if let Some(first) = places.iter().find(|place| place.is_label) {
        put_location(&mut json, document, first.line, first.column, first.width);
    }
    Ok(json)
}

/// Where the label of a place is used, and where it stands, if that is wanted.
pub(crate) fn references(
    alloc: Global,
    document: &Document,
    place: LinePlace,
    wants_label: bool,
) -> Result<Json, AllocError> {
    let places = places_at(alloc, document, place)?;
    let mut json = Json::new(alloc);
    json.begin_list();
    for place in &places {
        if wants_label || !place.is_label {
            put_location(&mut json, document, place.line, place.column, place.width);
        }
    }
    json.close_list();
    Ok(json)
}

/// The edits after which the label of a place has another name; the image stays as it is.
pub(crate) fn renamed(
    alloc: Global,
    document: &Document,
    place: LinePlace,
    new: &str,
) -> Result<Json, Refusal> {
    let Some(word) = name_on(alloc, place.line.bytes, place.column)? else {
        return Err(Refusal::of_parameters(fault_words(RenameFault::NoLabel)));
    };
    match rename_edits(alloc, &document.ascii, word.bytes, new.as_bytes())? {
        Ok(edits) => {
            let list = edits_value(alloc, document, &edits);
            let mut json = Json::new(alloc);
            json.open();
            json.key("changes");
            json.open();
            json.value_of(document.uri.as_str(), &list);
            json.close();
            json.close();
            Ok(json)
        }
        Err(fault) => Err(Refusal::of_parameters(fault_words(fault))),
    }
}

/// Why a label keeps its name, in a sentence.
fn fault_words(fault: RenameFault) -> &'static str {
    match fault {
        RenameFault::NoLabel => "no label stands or is used here",
        RenameFault::NoName =>
            "this is no name: a letter or _, then letters, digits or _, at most 32 in all",
        RenameFault::Taken => "a label of this name stands already",
        RenameFault::OtherImage => "the text has errors: mend them first",
    }
}
