//! The command `asm`.

use command_parts::{CommandAnswer, Inputs, LabFault, is_image, program_of};
use image_file::write_image;
use std::alloc::Global;
use std::io::Read;
use std::rt::Files;

/// Assembles a source text. Where no path is named for the image, it stands beside the source, and follows no link.
pub fn assemble_file<F: Files, R: Read>(
    alloc: Global,
    inputs: &mut Inputs<'_, F, R>,
    source: &str,
    image: Option<&str>,
) -> Result<CommandAnswer, LabFault> {
    let bytes = inputs.read(alloc, source)?;
    if is_image(&bytes) {
        return Err(LabFault::Words(format!(in alloc;
            "{source}: this is an image, and no source text"
        )?));
    }
    let program = program_of(alloc, source, bytes)?;
    let written = write_image(alloc, &program.image)?;
    match image {
        Some(path) => inputs.write(alloc, path, &written)?,
        None => {
            let path = image_path(alloc, source)?;
            inputs.write_derived(alloc, &path, &written)?;
        }
    }
    Ok(CommandAnswer::silent(alloc))
}

/// The path of a source's image: its name with `.image` in place of `.asm`.
fn image_path(alloc: Global, source: &str) -> Result<String, LabFault> {
    let stem = source.strip_suffix(".asm").unwrap_or(source);
    Ok(format!(in alloc; "{stem}.image")?)
}
