//! The bytes of a reader, taken one by one.
ghost use Rattle.std.specs.Prelude.{◌≡◌, ◌<◌, ◌≤◌, ◌⊎◌, ◌∷◌, [], ℕ, true, false, IfOk, IfErr, IfSome, None};
ghost use Rattle.std.specs.Io.KnownBytes.{Keeps, Consumes};
ghost use Rattle.mta_engines.specs.Input.{input_limit};
ghost use Rattle.mta_engines.specs.LineReading.{TakesBytes, Ends, ahead, bytes_left};

use crate::input::INPUT_LIMIT;
use crate::tool_fault::ToolFault;
use crate::window::{CHUNK, Window};
use std::io::Read;

/// The bytes of a reader that were read and not yet taken. At most [`INPUT_LIMIT`] are read in all.
///
/// The reader itself is passed to each call. It is read only where no byte is left, so what a terminal has is taken as
/// it comes; and never again once it was at its end.
#[derive(Drop)]
pub(crate) struct ByteReader {
    pub(crate) chunk: [u8; CHUNK],
    pub(crate) window: Window,
}

impl ByteReader {
    /// Before the first byte.
    pub(crate) fn new() -> ByteReader
        ensures empty { ahead result ≡ [] }
        ensures room { bytes_left result ≡ input_limit }
        ensures not_at_end { result.window.at_end ≡ false }
    {
        ByteReader {
            chunk: [0; CHUNK],
            window: Window {
                start: 0,
                end: 0,
                left: INPUT_LIMIT,
                at_end: false,
            },
        }
    }

    /// The next byte of the reader, or None at its end. `Read` where a read failed or was interrupted, `TooLarge` where
    /// the byte would be one more than [`INPUT_LIMIT`].
    pub(crate) fn next<R: Read>(&mut self, reader: &mut R) -> Result<Option<u8>, ToolFault>
        ensures byte { IfOk result (λ next. IfSome next (λ byte.
            TakesBytes self.old (R.remaining reader.old) self.new (R.remaining reader.new) (byte ∷ []))) }
        ensures not_at_end { IfOk result (λ next. IfSome next (λ byte.
            (self.old.window.at_end ≡ false) × (self.new.window.at_end ≡ false))) }
        ensures end { result ≡ Ok None
            → Ends self.old (R.remaining reader.old) self.new (R.remaining reader.new) }
        ensures read { result ≡ Err ToolFault.Read
            → Keeps (R.remaining reader.old) (R.remaining reader.new) }
        ensures too_large { result ≡ Err ToolFault.TooLarge
            → (byte : ℕ) × Consumes (R.remaining reader.old) (R.remaining reader.new) (byte ∷ []) }
        ensures none_left { IfErr result (λ fault. (ahead self.old ≡ []) × (self.old.window.at_end ≡ false)) }
        ensures no_room { result ≡ Err ToolFault.TooLarge → bytes_left self.old ≡ 0 }
        ensures faults { IfErr result (λ fault. (fault ≡ ToolFault.Read) ⊎ (fault ≡ ToolFault.TooLarge)) }
    {
        if self.window.start == self.window.end && !self.fill(reader)? {
            return Ok(None);
        }
        let byte = self.chunk[self.window.start];
        self.window.start += 1;
        Ok(Some(byte))
    }

    /// Reads on, where no byte is left, and says whether there were bytes to read.
    fn fill<R: Read>(&mut self, reader: &mut R) -> Result<bool, ToolFault>
        requires { self.old.window.start ≡ self.old.window.end }
        ensures some { result ≡ Ok true
            → TakesBytes self.old (R.remaining reader.old) self.new (R.remaining reader.new) [] }
        ensures within { result ≡ Ok true → self.new.window.start < self.new.window.end }
        ensures not_at_end { result ≡ Ok true → (self.old.window.at_end ≡ false) × (self.new.window.at_end ≡ false) }
        ensures end { result ≡ Ok false
            → Ends self.old (R.remaining reader.old) self.new (R.remaining reader.new) }
        ensures read { result ≡ Err ToolFault.Read
            → Keeps (R.remaining reader.old) (R.remaining reader.new) }
        ensures too_large { result ≡ Err ToolFault.TooLarge
            → (byte : ℕ) × Consumes (R.remaining reader.old) (R.remaining reader.new) (byte ∷ []) }
        ensures not_at_end_before { IfErr result (λ fault. self.old.window.at_end ≡ false) }
        ensures no_room { result ≡ Err ToolFault.TooLarge → bytes_left self.old ≡ 0 }
        ensures faults { IfErr result (λ fault. (fault ≡ ToolFault.Read) ⊎ (fault ≡ ToolFault.TooLarge)) }
    {
        let left = self.window.left;
        if self.window.at_end {
            return Ok(false);
        }
        // where no more may be read, one byte shows that there is more
        let most = CHUNK.min(left).max(1);
        let Ok(count) = reader.read(&mut self.chunk[..most]) else {
            return Err(ToolFault::Read);
        };
        if count > left {
            return Err(ToolFault::TooLarge);
        }
        self.window = Window {
            start: 0,
            end: count,
            left: left - count,
            at_end: count == 0,
        };
        Ok(count > 0)
    }
}
