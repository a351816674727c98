//! The first bytes of a line.
ghost use Rattle.std.specs.Prelude.{◌≡◌, ◌≤◌, ◌∷◌, ◌++◌, [], take, vec_len, vec_capacity};

use debug_commands::COMMAND_LIMIT;
use std::alloc::{AllocError, Global};

/// The most bytes of a line that are kept: one more than a command has, so that a longer line is none.
const MOST_KEPT: usize = COMMAND_LIMIT + 1;

/// The first bytes of a line.
#[derive(Drop)]
pub(crate) struct LineStart {
    pub(crate) bytes: Vec<u8>,
    ghost has_room: { 257 ≤ vec_capacity bytes },
    ghost is_start: { vec_len bytes ≤ 257 },
}

impl LineStart {
    /// No bytes yet.
    pub(crate) fn new(alloc: Global) -> Result<LineStart, AllocError> {
        Ok(LineStart {
            bytes: Vec::with_capacity(alloc, MOST_KEPT)?,
        })
    }

    /// Begins anew.
    pub(crate) fn clear(&mut self)
        ensures { self.new.bytes.items ≡ [] }
    {
        self.bytes.clear();
    }

    /// Adds a byte, if so many are kept.
    pub(crate) fn push(&mut self, byte: u8)
        ensures { self.new.bytes.items ≡ take 257 (self.old.bytes.items ++ byte ∷ []) }
    {
        if self.bytes.len() < MOST_KEPT {
            self.bytes.push_reserved(byte);
        }
    }
}
