//! A part of the bytes that were read.
ghost use Rattle.std.specs.Prelude.{◌≡◌, ◌≤◌, true};

/// The most bytes that one read asks for.
pub(crate) const CHUNK: usize = 4096;

/// Which bytes of a chunk are not yet taken, and how many more may be read.
#[derive(Clone, Copy)]
pub(crate) struct Window {
    pub(crate) start: usize,
    pub(crate) end: usize,
    pub(crate) left: usize,
    pub(crate) at_end: bool,
    ghost ordered: { start ≤ end },
    ghost within: { end ≤ 4096 },
    ghost none_after_end: { at_end ≡ true → start ≡ end },
}
