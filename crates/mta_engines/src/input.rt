//! Readers read whole.
ghost use Rattle.std.specs.Prelude.{◌≡◌, ◌<◌, ◌≤◌, length, vec_len, IfOk, IfErr, IfSome};
ghost use Rattle.mta_engines.specs.Faults.{IsOfReading};
ghost use Rattle.mta_engines.specs.Input.{input_limit};

use crate::tool_fault::ToolFault;
use std::alloc::Global;
use std::io::Read;

/// The most bytes that a command takes from one reader.
pub const INPUT_LIMIT: usize = 33_554_432;

/// The bytes that one read asks for.
const CHUNK: usize = 8192;

/// All the bytes that a reader has, at most [`INPUT_LIMIT`] of them.
///
/// `TooLarge` where there are more, `Read` where a read failed or was interrupted, `NoMemory` where memory was
/// refused.
pub(crate) fn read_input<R: Read>(alloc: Global, reader: &mut R) -> Result<Vec<u8>, ToolFault>
    ensures whole { IfOk result (λ bytes. IfSome (R.remaining reader.old) (λ input.
        bytes.items ≡ input)) }
    ensures within { IfOk result (λ bytes. vec_len bytes ≤ input_limit) }
    ensures too_large { result ≡ Err ToolFault.TooLarge
        → IfSome (R.remaining reader.old) (λ input. input_limit < length input) }
    ensures others { IfErr result IsOfReading }
{
    let mut input = Vec::new(alloc);
    let mut chunk = [0; CHUNK];
    loop {
        let Ok(count) = reader.read(&mut chunk) else {
            return Err(ToolFault::Read);
        };
        if count == 0 {
            return Ok(input);
        }
        if count > INPUT_LIMIT - input.len() {
            return Err(ToolFault::TooLarge);
        }
        input.extend_from_slice(&chunk[..count])?;
    }
}
