//! What ends a search before its end.

ghost use Rattle.std.specs.Prelude.{◌≡◌};
ghost use Rattle.program_searches.specs.Bounds.{bound_words, bound_json_name};

/// The most megabytes, of 1,000,000 bytes, of a search of which nothing else is said.
pub const USUAL_MEGABYTES: usize = 2_000;

/// What ended a search before its end.
#[derive(Clone, Copy, Debug, PartialEq, Eq)]
pub enum SearchBound {
    /// As many worlds were found as were asked for.
    States,
    /// The seconds were over.
    Seconds,
    /// What it held took more than the megabytes that were asked for, or more than [`USUAL_MEGABYTES`].
    Memory,
    /// Memory was refused.
    Refused,
}

impl SearchBound {
    /// It in words, which follow what was not reached.
    pub fn words(self) -> &'static str
        ensures { result.now ≡ bound_words self }
    {
        match self {
            SearchBound::States => "ended by --states",
            SearchBound::Seconds => "ended by --seconds",
            SearchBound::Memory => "ended by --memory",
            SearchBound::Refused => "memory was refused",
        }
    }

    /// Its name in objects.
    pub fn json_name(self) -> &'static str
        ensures { result.now ≡ bound_json_name self }
    {
        match self {
            SearchBound::States => "states",
            SearchBound::Seconds => "seconds",
            SearchBound::Memory => "memory",
            SearchBound::Refused => "refused",
        }
    }
}
