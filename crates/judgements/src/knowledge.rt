//! What was looked at to come to a verdict.

ghost use Rattle.std.specs.Prelude.{◌≡◌};
ghost use Rattle.judgements.specs.Known.{sum_of, most_of, together};

use program_searches::SearchBound;

/// What was looked at to come to a verdict.
#[derive(Clone, Copy, Debug)]
pub struct Known {
    /// How many worlds a search found; None where there was none.
    pub worlds: Option<usize>,
    /// Whether they are those of every schedule.
    pub is_every: bool,
    /// What ended the search before that; None if nothing did.
    pub bound: Option<SearchBound>,
    /// How many seeds were tried, the one that decides the last of them; None where none was.
    pub seeds: Option<usize>,
}

impl Known {
    /// Nothing was looked at.
    pub const NOTHING: Known = Known {
        worlds: None,
        is_every: false,
        bound: None,
        seeds: None,
    };

    /// What was looked at of two cases of which each is right: the states of both, of every schedule only where each is, and
    /// the seeds of the one that tried more.
    pub(crate) fn with(self, other: Known) -> Known
        ensures { result ≡ together self other }
    {
        Known {
            worlds: sum_of(self.worlds, other.worlds),
            is_every: self.is_every && other.is_every,
            bound: None,
            seeds: most_of(self.seeds, other.seeds),
        }
    }
}

/// The sum of two numbers, which may be missing.
fn sum_of(one: Option<usize>, other: Option<usize>) -> Option<usize>
    ensures { result ≡ sum_of one other }
{
    match (one, other) {
        (Some(one), Some(other)) => Some(one.saturating_add(other)),
        (None, number) | (number, None) => number,
    }
}

/// The greater of two numbers, which may be missing.
fn most_of(one: Option<usize>, other: Option<usize>) -> Option<usize>
    ensures { result ≡ most_of one other }
{
    match (one, other) {
        (Some(one), Some(other)) => Some(one.max(other)),
        (None, number) | (number, None) => number,
    }
}
