//! Who looks on at a search, and what ends one before its end.

ghost use Rattle.std.specs.Prelude.{IsFalse};

/// Looks on at a search, and may end it before its end.
pub trait Watch {
    /// What is so of one that has ended a search.
    ghost HasEnded: { Self → Type 0 };

    /// Whether a search goes on. It has found so many worlds, of which so many still wait after the next one to have
    /// their steps taken, and holds about so many bytes. It is asked before the steps of the first world are taken, and
    /// before those of each sixteenth world after it.
    fn goes_on(&mut self, found: usize, waiting: usize, bytes: usize) -> bool
        ensures { IsFalse result → HasEnded self.new };
}

/// What ended a search before its end.
#[derive(Clone, Copy, Debug, PartialEq, Eq)]
pub enum Bound {
    /// As many worlds were found as were asked for, and there are more.
    Worlds,
    /// Who looks on said so.
    Watch,
    /// Memory was refused.
    Memory,
}
