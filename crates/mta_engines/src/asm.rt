//! The engine of the command `asm`.
ghost use Rattle.std.specs.Prelude.{◌≢◌, OnOk, IfErr, IfSome};
ghost use Rattle.std.specs.Io.KnownBytes.{Keeps};
ghost use Rattle.mta_engines.specs.Faults.{IsFaultBy};
ghost use Rattle.mta_engines.specs.InputOutput.{HasInput, HasOutput};
ghost use Rattle.mta_engines.specs.AsmOutput.{IsAsmOutput, HasAsmFault};

use crate::input::read_input;
use crate::output::write_output;
use crate::tool_fault::ToolFault;
use asm_text::assemble;
use image_file::write_image;
use std::alloc::Global;
use std::io::{Read, Write};

/// Reads a source text, assembles it, and writes the image's bytes ("Source text" and "Image files",
/// docs/FORMATS.md).
///
/// The bytes are composed before the writer is first touched.
pub fn asm_engine<R: Read, W: Write>(
    alloc: Global,
    source: &mut R,
    writer: &mut W,
) -> Result<(), ToolFault>
    ensures output { OnOk result (HasInput (R.remaining source.old) (λ text.
        HasOutput (W.contents writer.old) (W.contents writer.new) (IsAsmOutput text))) }
    ensures fault { IfErr result (λ fault. IfSome (R.remaining source.old) (λ text.
        IsFaultBy (HasAsmFault text) fault)) }
    ensures writer_as_before { IfErr result (λ fault. fault ≢ ToolFault.Write
        → Keeps (W.contents writer.old) (W.contents writer.new)) }
{
    let text = read_input(alloc, source)?;
    let image = assemble(alloc, &text)?;
    let bytes = write_image(alloc, &image)?;
    write_output(writer, &bytes)
}
