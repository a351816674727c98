//! The graph of the worlds that were looked at, as a file.

use crate::explored_text::push_head_line;
use expectation_files::Requirements;
use image_file::Image;
use search_texts::parts::texts::Notation;
use search_texts::parts::{Inputs, LabFault};
use search_texts::searches::Explored;
use space_graphs::ends_in_words::words_of_ends;
use space_graphs::{MOST_DRAWN, graph_of};
use std::alloc::{AllocError, Global};
use std::io::Read;
use std::rt::Files;

/// Writes the graph of a search to the file that is asked for, with its ends in these words; a fault where it has too many
/// worlds.
pub(crate) fn write_graph<F: Files, R: Read>(
    alloc: Global,
    inputs: &Inputs<'_, F, R>,
    path: Option<&str>,
    graphed: GraphedSearch<'_>,
) -> Result<(), LabFault> {
    let Some(path) = path else {
        return Ok(());
    };
    let GraphedSearch {
        found,
        required,
        notation,
        image,
    } = graphed;
    if found.worlds() > MOST_DRAWN {
        return Err(too_many(alloc, path, found)?);
    }
    let words = words_of_ends(alloc, notation, required, image, &found.ends)?;
    let graph = graph_of(alloc, &found.space, &found.ends, &words)?;
    let text = with_head(alloc, found, &graph)?;
    inputs.write(alloc, path, text.as_bytes())
}

/// A search, and what its ends are put into words by.
#[derive(Clone, Copy)]
pub(crate) struct GraphedSearch<'a> {
    /// What it came to.
    pub found: &'a Explored<'a>,
    /// What is required of the program.
    pub required: &'a Requirements,
    /// How places and numbers are written.
    pub notation: Notation<'a, 'a>,
    /// The program's image.
    pub image: &'a Image,
}

/// What is said of a graph of too many worlds.
fn too_many(alloc: Global, path: &str, found: &Explored<'_>) -> Result<LabFault, AllocError> {
    let worlds = found.worlds();
    Ok(LabFault::Words(format!(in alloc;
        "{path}: not written: a graph has up to {MOST_DRAWN} states, and these are {worlds}; loops that repeat less often make fewer states, and so does a beginning by --from"
    )?))
}

/// A graph after comments that say of what it is.
fn with_head(alloc: Global, found: &Explored<'_>, graph: &str) -> Result<String, AllocError> {
    let mut text = String::from_str(alloc, "// ")?;
    push_head_line(&mut text, found)?;
    if !found.is_of_all_worlds {
        text.push_str(
            "// States that the ends do not need were not explored, and are not here: --plain draws all.\n",
        )?;
    }
    text.push_str(graph)?;
    Ok(text)
}
