//! The one layout, as edits.

use crate::documents::Document;
use crate::ranges::edits_value;
use editor_wire::Json;
use source_edits::layout_edits;
use std::alloc::{AllocError, Global};

/// The edits after which a text has the one layout; none where it has an error.
pub(crate) fn layout(alloc: Global, document: &Document) -> Result<Json, AllocError> {
    match layout_edits(alloc, &document.text)? {
        Some(edits) => Ok(edits_value(alloc, document, &edits)),
        None => Ok(edits_value(alloc, document, &[])),
    }
}
