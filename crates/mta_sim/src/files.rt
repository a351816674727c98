//! The files of a command, opened in the order of its arguments.
ghost use Rattle.std.specs.Prelude.{◌≡◌, IfErr};

use mta_engines::ToolFault;
use std::fs;
use std::rt::Files;

/// A file that a command reads; `Read` where it can't be opened. Which file stands under a path is in no clause.
pub(crate) fn open_input<F: Files>(files: &F, path: &str) -> Result<F::File, ToolFault>
    ensures { IfErr result (λ fault. fault ≡ ToolFault.Read) }
{
    fs::open(files, path).map_err(|_| ToolFault::Read)
}

/// A file that a command writes, made, or emptied where it is there; `Write` where that can't be. Which file stands
/// under a path, and that it is empty, is in no clause.
pub(crate) fn create_output<F: Files>(files: &F, path: &str) -> Result<F::File, ToolFault>
    ensures { IfErr result (λ fault. fault ≡ ToolFault.Write) }
{
    fs::create(files, path).map_err(|_| ToolFault::Write)
}
