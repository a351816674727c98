//! The command `gallery`: its arguments, in the order of the help, and what it asks.

use crate::arguments::{Argument, Form, Presence};
use crate::options::{EXAMPLES, EXERCISES, text, word};
use crate::values::ValueKind;
use clap::ArgMatches;
use lab_requests::GalleryRequest;

/// Of `gallery`.
pub(crate) const GALLERY_ARGUMENTS: [Argument; 3] = [
    Argument(
        "FOLDER",
        "the folder that the pages are written into; it is made if it is not there",
        Form::Needed(ValueKind::Folder),
    ),
    Argument(
        "exercises",
        "where the exercises are [exercises]",
        Form::Option("FOLDER", ValueKind::Folder, Presence::Free),
    ),
    Argument(
        "examples",
        "where the examples are [examples]",
        Form::Option("FOLDER", ValueKind::Folder, Presence::Free),
    ),
];

/// What `gallery` is asked.
pub(crate) fn gallery_of<'a>(found: &ArgMatches<'a>) -> GalleryRequest<'a> {
    GalleryRequest {
        folder: word(found, "FOLDER"),
        exercises: text(found, "exercises").unwrap_or(EXERCISES),
        examples: text(found, "examples").unwrap_or(EXAMPLES),
    }
}
