//! What shows a world.

ghost use Rattle.std.specs.Prelude.{◌≡◌, ℕ};
ghost use Rattle.std.specs.Option.{option_copied};
ghost use Rattle.tag_memory.specs.Storage.{cell_at};
ghost use Rattle.processor.specs.World.{World, stream_of, counts_of};

use machine::Machine;
use stream_core::Stream;
use tag_memory::Word;

/// The readers of a world: a machine has them, and so has whatever else knows what a machine came to.
pub trait WorldReaders {
    /// The world that they show.
    ghost world: { Self → World };

    /// How many streams of a processor they have room for.
    ghost room: { ℕ };

    /// How many streams of a processor are current and how many are reserved; None where there is no such processor.
    fn counts(&self, p: u8) -> Option<(u16, u16)>
        ensures { result ≡ counts_of (world self.now) p };

    /// The stream of these numbers; None where there is no such processor, or `s` is the room or more.
    fn stream(&self, p: u8, s: u8) -> Option<&Stream>
        ensures { option_copied result ≡ stream_of room (world self.now) p s };

    /// The word at a byte address; None where the address is not a multiple of 8, or past the last word.
    fn word(&self, address: u64) -> Option<Word>
        ensures { result ≡ cell_at (world self.now).memory address };
}

impl<'i, const S: usize> WorldReaders for Machine<'i, S> {
    ghost world = { λ m. m.world };

    ghost room = { S };

    fn counts(&self, p: u8) -> Option<(u16, u16)> {
        Machine::counts(self, p)
    }

    fn stream(&self, p: u8, s: u8) -> Option<&Stream> {
        Machine::stream(self, p, s)
    }

    fn word(&self, address: u64) -> Option<Word> {
        Machine::word(self, address)
    }
}
