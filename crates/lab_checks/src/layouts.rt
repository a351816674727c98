//! The command `fmt`.

use command_parts::{CommandAnswer, Inputs, LabFault, SourceText, Status, is_image, program_of};
use lab_requests::LayoutRequest;
use plain_text::push_plain;
use source_layout::laid_out;
use std::alloc::{AllocError, Global};
use std::io::Read;
use std::rt::Files;

/// A text in the one layout, which it did not have.
#[derive(Drop)]
struct NewLayout<'a> {
    /// The path of its file.
    path: &'a str,
    /// What was read of it.
    read: Vec<u8>,
    /// The text.
    text: Vec<u8>,
}

/// Lays source texts out in place, or says which would change. A fault of one leaves all as they are.
pub fn lay_out<F: Files, R: Read>(
    alloc: Global,
    inputs: &mut Inputs<'_, F, R>,
    request: &LayoutRequest,
) -> Result<CommandAnswer, LabFault> {
    let mut changed = Vec::new(alloc);
    for path in &request.files {
        if *path == "-" {
            return lay_out_input(alloc, inputs, request);
        }
        let read = inputs.read_to_replace(alloc, path)?;
        let bytes = Vec::from_slice(alloc, &read)?;
        if let Some(text) = new_layout(alloc, path, bytes)? {
            changed.push(NewLayout { path, read, text })?;
        }
    }
    if request.files.is_empty() {
        return lay_out_input(alloc, inputs, request);
    }
    if request.checks {
        return would_change(alloc, &changed);
    }
    write_layouts(alloc, inputs, &changed)
}

/// Writes the texts to their files, and says which were written before a fault. A file that has changed since it was read
/// is left alone.
fn write_layouts<F: Files, R: Read>(
    alloc: Global,
    inputs: &Inputs<'_, F, R>,
    changed: &[NewLayout],
) -> Result<CommandAnswer, LabFault> {
    let mut out = String::new(alloc);
    for layout in changed {
        match inputs.write_over_read(alloc, layout.path, &layout.read, &layout.text) {
            Ok(()) => push_file(&mut out, layout.path, "laid out")?,
            Err(fault) => {
                return Ok(CommandAnswer {
                    output: out,
                    errors: String::new(alloc),
                    status: Status::Fault,
                    fault: Some(fault),
                });
            }
        }
    }
    Ok(CommandAnswer::printed(alloc, out, Status::Done))
}

/// Lays standard input out to standard output, or says whether it would change.
fn lay_out_input<F: Files, R: Read>(
    alloc: Global,
    inputs: &mut Inputs<'_, F, R>,
    request: &LayoutRequest,
) -> Result<CommandAnswer, LabFault> {
    if request.files.len() > 1 {
        return Err(LabFault::Words(String::from_str(
            alloc,
            "- is standard input, and goes alone",
        )?));
    }
    let read = inputs.read(alloc, "-")?;
    let bytes = Vec::from_slice(alloc, &read)?;
    let layout = new_layout(alloc, "-", bytes)?;
    if request.checks {
        return match layout {
            Some(text) => {
                let path = "-";
                would_change(alloc, &[NewLayout { path, read, text }])
            }
            None => Ok(CommandAnswer::silent(alloc)),
        };
    }
    match String::from_utf8(layout.unwrap_or(read)) {
        Ok(text) => Ok(CommandAnswer::printed(alloc, text, Status::Done)),
        Err(_) => Err(LabFault::Words(String::from_str(
            alloc,
            "-: a comment is not UTF-8; name the file, whose comments stay as they are",
        )?)),
    }
}

/// The text of a path's bytes in the one layout; None where they have it.
fn new_layout(alloc: Global, path: &str, bytes: Vec<u8>) -> Result<Option<Vec<u8>>, LabFault> {
    if is_image(&bytes) {
        return Err(LabFault::Words(format!(in alloc;
            "{path}: this is an image, and no source text"
        )?));
    }
    let given = Vec::from_slice(alloc, &bytes)?;
    let _ = program_of(alloc, path, bytes)?;
    let copy = Vec::from_slice(alloc, &given)?;
    let source = SourceText::of(alloc, copy)?.into_written();
    match laid_out(alloc, &source)? {
        Some(text) if text == given => Ok(None),
        Some(text) => Ok(Some(text)),
        None => Err(LabFault::Words(format!(in alloc;
            "{path}: not laid out: its image would change"
        )?)),
    }
}

/// Says which files would change: it is a fault where there is one.
fn would_change(alloc: Global, changed: &[NewLayout]) -> Result<CommandAnswer, LabFault> {
    let mut out = String::new(alloc);
    for layout in changed {
        push_file(&mut out, layout.path, "the layout would change")?;
    }
    let status = if changed.is_empty() {
        Status::Done
    } else {
        Status::Fault
    };
    Ok(CommandAnswer::printed(alloc, out, status))
}

/// Adds a line about a file.
fn push_file(out: &mut String, path: &str, words: &str) -> Result<(), AllocError> {
    push_plain(out, path)?;
    out.push_str(": ")?;
    out.push_str(words)?;
    out.push_str("\n")
}
