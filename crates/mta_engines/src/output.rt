//! Outputs written whole.
ghost use Rattle.std.specs.Prelude.{◌≡◌, OnOk, IfErr};
ghost use Rattle.std.specs.Io.KnownBytes.{Appends};

use crate::tool_fault::ToolFault;
use std::io::Write;

/// Writes all of an output, and flushes the writer. Of the writer after a fault nothing is said.
pub(crate) fn write_output<W: Write>(writer: &mut W, output: &[u8]) -> Result<(), ToolFault>
    ensures output { OnOk result (Appends (W.contents writer.old) (W.contents writer.new) output.now) }
    ensures fault { IfErr result (λ fault. fault ≡ ToolFault.Write) }
{
    if writer.write_all(output).is_err() || writer.flush().is_err() {
        return Err(ToolFault::Write);
    }
    Ok(())
}
