//! The command `new`.

use crate::first_programs::first_program;
use command_parts::{CommandAnswer, Inputs, LabFault, NewFile, Status};
use lab_requests::Idiom;
use plain_text::plain;
use std::alloc::Global;
use std::io::Read;
use std::rt::Files;

/// Writes a program to begin with, which shows this or counts, and what each of its ends has to be, where nothing has these names: both or none.
pub fn start_program<F: Files, R: Read>(
    alloc: Global,
    inputs: &mut Inputs<'_, F, R>,
    name: &str,
    idiom: Option<Idiom>,
) -> Result<CommandAnswer, LabFault> {
    let first = first_program(idiom);
    let stem = name.strip_suffix(".asm").unwrap_or(name);
    let source = format!(in alloc; "{stem}.asm")?;
    let expected = format!(in alloc; "{stem}.expect")?;
    for path in [source.as_str(), expected.as_str()] {
        if inputs.files.symlink_metadata(path).is_ok() {
            return Err(LabFault::Words(format!(in alloc; "{path}: there is a file of this name")?));
        }
    }
    // (one may have come meanwhile)
    inputs.make_new(
        alloc,
        &[
            NewFile {
                path: &source,
                bytes: first.source.as_bytes(),
            },
            NewFile {
                path: &expected,
                bytes: first.expected.as_bytes(),
            },
        ],
    )?;
    let (source, expected) = (plain(alloc, &source)?, plain(alloc, &expected)?);
    let about = first.about;
    let printed = format!(in alloc;
        "{source}: {about}\n{expected}: what each of its ends has to be\nnext: mta_lab explore {source} --expect {expected}\n"
    )?;
    Ok(CommandAnswer::printed(alloc, printed, Status::Done))
}
