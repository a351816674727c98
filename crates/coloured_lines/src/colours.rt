//! Colours, as a terminal takes them.

/// What a colour says.
#[derive(Clone, Copy, Debug, PartialEq, Eq)]
pub(crate) enum Colour {
    /// An error, or an end that is wrong.
    Bad,
    /// A warning, or what was not decided.
    Doubtful,
    /// An end that is right.
    Good,
    /// A word that is full.
    Full,
    /// A word that is empty.
    Empty,
}

/// What ends a colour.
pub(crate) const PLAIN: &str = "\x1b[0m";

impl Colour {
    /// What begins it.
    pub(crate) fn begin(self) -> &'static str {
        match self {
            Colour::Bad => "\x1b[1;31m",
            Colour::Doubtful => "\x1b[1;33m",
            Colour::Good => "\x1b[32m",
            Colour::Full => "\x1b[36m",
            Colour::Empty => "\x1b[35m",
        }
    }
}
