//! The world that a schedule ends in, as its readers show it.

ghost use Rattle.std.specs.Prelude.{ℕ};
ghost use Rattle.processor.specs.World.{run};

use shared_history::Woven;
use stream_core::Stream;
use tag_memory::Word;
use trace_text::WorldReaders;

/// A schedule whose end is read.
#[derive(Drop)]
pub struct WovenReaders<'w, 'i, const S: usize> {
    pub woven: &'w Woven<'i, S>,
}

impl<'w, 'i, const S: usize> WorldReaders for WovenReaders<'w, 'i, S> {
    ghost world = { λ r. run r.woven.now.shared.image r.woven.now.schedule };

    ghost room = { S };

    fn counts(&self, p: u8) -> Option<(u16, u16)> {
        self.woven.counts(p)
    }

    fn stream(&self, p: u8, s: u8) -> Option<&Stream> {
        self.woven.stream(p, s)
    }

    fn word(&self, address: u64) -> Option<Word> {
        self.woven.word(address)
    }
}
