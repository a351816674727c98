//! The engine of the command `list`.
ghost use Rattle.std.specs.Prelude.{◌≢◌, OnOk, IfErr, IfSome};
ghost use Rattle.std.specs.Io.KnownBytes.{Keeps};
ghost use Rattle.mta_engines.specs.Faults.{IsFaultBy};
ghost use Rattle.mta_engines.specs.InputOutput.{HasInput, HasOutput};
ghost use Rattle.mta_engines.specs.Images.{HasImageFault};
ghost use Rattle.mta_engines.specs.ListOutput.{IsListOutput};

use crate::image_and_schedule::read_image_input;
use crate::output::write_output;
use crate::tool_fault::ToolFault;
use asm_text::listing;
use std::alloc::Global;
use std::io::{Read, Write};

/// Reads an image and writes its listing, which is the source text that means just this image ("Listing",
/// docs/FORMATS.md).
///
/// The listing is composed before the writer is first touched.
pub fn list_engine<R: Read, W: Write>(
    alloc: Global,
    image: &mut R,
    writer: &mut W,
) -> Result<(), ToolFault>
    ensures output { OnOk result (HasInput (R.remaining image.old) (λ bytes.
        HasOutput (W.contents writer.old) (W.contents writer.new) (IsListOutput bytes))) }
    ensures fault { IfErr result (λ fault. IfSome (R.remaining image.old) (λ bytes.
        IsFaultBy (HasImageFault bytes) fault)) }
    ensures writer_as_before { IfErr result (λ fault. fault ≢ ToolFault.Write
        → Keeps (W.contents writer.old) (W.contents writer.new)) }
{
    let image = read_image_input(alloc, image)?;
    let text = listing(alloc, &image)?;
    write_output(writer, text.as_bytes())
}
