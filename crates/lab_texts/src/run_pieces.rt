//! Pieces of texts about runs.

use crate::values::{NumberStyle, trap_name};
use plain_text::TextWriter;
use stream_core::TrapKind;

/// From here on a number is shown as the negative one that it stands for.
const NEGATIVE_FROM: u64 = 0xFFFF_FFFF_0000_0000;

/// What a writer adds of a run besides plain texts and numbers.
pub trait RunPieces {
    /// Adds a number in the style of values.
    fn put_value(&mut self, style: NumberStyle, value: u64);

    /// Adds the name of a stream, as `2.0`.
    fn put_stream(&mut self, p: u8, s: u8);

    /// Adds a trap's number and name: `trap 3, CREATE`.
    fn put_trap(&mut self, trap: TrapKind);
}

impl RunPieces for TextWriter {
    fn put_value(&mut self, style: NumberStyle, value: u64) {
        match style {
            NumberStyle::Hexadecimal => self.put_bits(value),
            NumberStyle::Decimal if value >= NEGATIVE_FROM => {
                self.put("-");
                self.put_number(value.wrapping_neg());
            }
            NumberStyle::Decimal => self.put_number(value),
        }
    }

    fn put_stream(&mut self, p: u8, s: u8) {
        self.put_number(u64::from(p));
        self.put(".");
        self.put_number(u64::from(s));
    }

    fn put_trap(&mut self, trap: TrapKind) {
        self.put("trap ");
        self.put_number(u64::from(trap.number()));
        self.put(", ");
        self.put(trap_name(trap));
    }
}
