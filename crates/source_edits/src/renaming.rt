//! Another name for a label.

ghost use Rattle.std.specs.Prelude.{◌≡◌, ◌<◌, length, IfOk, IsTrue, None};
ghost use Rattle.std.specs.List.{All};
ghost use Rattle.editor_texts.specs.Edits.{edited, edits_seen};
ghost use Rattle.source_layout.specs.SameMeaning.{MeanOneImage};

use crate::label_places::{NamePlace, declares, places_of_name};
use editor_texts::{TextEdit, edited};
use source_layout::mean_one_image;
use std::alloc::{AllocError, Global};

/// The most bytes of a name.
const LONGEST: usize = 32;

/// Why a label keeps its name.
#[derive(Clone, Copy, Debug, PartialEq, Eq)]
pub enum RenameFault {
    /// No label of the text has the name.
    NoLabel,
    /// The new name is none that a label may have.
    NoName,
    /// Another label has it already.
    Taken,
    /// The text has an error, or its image would change.
    OtherImage,
}

/// The edits after which a label has another name, wherever it stands and is used: each puts the new name in the place of the
/// old one, one does at least, and the text then means the same image. Only memory can be missing.
pub fn rename_edits(
    alloc: Global,
    text: &[u8],
    name: &[u8],
    new: &[u8],
) -> Result<Result<Vec<TextEdit>, RenameFault>, AllocError>
    ensures image { IfOk result (λ r. IfOk r (λ es. MeanOneImage (edited 0 text.now (edits_seen es.items)) text.now)) }
    ensures some { IfOk result (λ r. IfOk r (λ es. 0 < length es.items)) }
    ensures names { IfOk result (λ r. IfOk r (λ es. All (λ e. e.text.items ≡ new.now) es.items)) }
{
    let places = places_of_name(alloc, text, name)?;
    if let Some(fault) = fault_of(alloc, text, &places, name, new)? {
        return Ok(Err(fault));
    }
    let edits = new_names(alloc, &places, new)?;
    if keep_image(alloc, text, &edits)? {
        Ok(Ok(edits))
    } else {
        Ok(Err(RenameFault::OtherImage))
    }
}

/// Why a label, whose name stands at these places, can't have another name, as the names alone say it.
#[tactic(auto, using(crate::proofs::Places::some_place))]
fn fault_of(
    alloc: Global,
    text: &[u8],
    places: &[NamePlace],
    name: &[u8],
    new: &[u8],
) -> Result<Option<RenameFault>, AllocError>
    ensures { IfOk result (λ o. o ≡ None → 0 < length places.now) }
{
    if !declares(places) {
        return Ok(Some(RenameFault::NoLabel));
    }
    if !is_name(new) {
        return Ok(Some(RenameFault::NoName));
    }
    if new != name && declares(&places_of_name(alloc, text, new)?) {
        return Ok(Some(RenameFault::Taken));
    }
    Ok(None)
}

/// Whether a text means the same image after edits.
#[tactic(auto, using(crate::proofs::SameTexts::image_of_same))]
fn keep_image(alloc: Global, text: &[u8], edits: &[TextEdit]) -> Result<bool, AllocError>
    ensures { IfOk result (λ b. IsTrue b → MeanOneImage (edited 0 text.now (edits_seen edits.now)) text.now) }
{
    match edited(alloc, text, edits)? {
        Some(made) => {
            let is_kept = mean_one_image(alloc, &made, text)?;
            Ok(is_kept)
        }
        None => Ok(false),
    }
}

/// An edit for each place of a label's name.
fn new_names(alloc: Global, places: &[NamePlace], new: &[u8]) -> Result<Vec<TextEdit>, AllocError>
    ensures count { IfOk result (λ v. length v.items ≡ length places.now) }
    ensures names { IfOk result (λ v. All (λ e. e.text.items ≡ new.now) v.items) }
{
    let mut edits = Vec::new(alloc);
    for place in places {
        edits.push(TextEdit {
            start: place.start,
            end: place.start.saturating_add(place.width),
            text: Vec::from_slice(alloc, new)?,
        })?;
    }
    Ok(edits)
}

/// Whether a text is a name that a label may have: a letter or `_`, then letters, digits or `_`, at most 32 in all.
pub fn is_name(text: &[u8]) -> bool {
    match text.first() {
        Some(first) if !first.is_ascii_digit() => {
            text.len() <= LONGEST
                && text
                    .iter()
                    .all(|byte| byte.is_ascii_alphanumeric() || *byte == b'_')
        }
        Some(_) | None => false,
    }
}
