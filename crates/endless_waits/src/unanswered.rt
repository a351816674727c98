//! Of which searches it is not asked who can wait forever.

ghost use Rattle.std.specs.Prelude.{◌≡◌};
ghost use Rattle.endless_waits.specs.Waits.{why_not, too_many, reason_words, reason_json_name};

use crate::extents::SearchExtent;

/// The most states of a search of which it is asked who can wait forever.
pub const MOST_STATES: usize = 100_000;

/// Why it is not asked who can wait forever.
#[derive(Clone, Copy, Debug, PartialEq, Eq)]
pub enum Unanswered {
    /// Not all states were looked for.
    NotAllStates,
    /// The search ended before it had all.
    NotComplete,
    /// There are more than [`MOST_STATES`].
    TooManyStates,
}

impl Unanswered {
    /// It in words.
    pub fn words(self) -> &'static str
        ensures { result.now ≡ reason_words self }
    {
        match self {
            Unanswered::NotAllStates => "not all states were explored",
            Unanswered::NotComplete => "the search is not complete",
            Unanswered::TooManyStates => "there are more than 100000 states",
        }
    }

    /// Its name in objects.
    pub fn json_name(self) -> &'static str
        ensures { result.now ≡ reason_json_name self }
    {
        match self {
            Unanswered::NotAllStates => "reduced",
            Unanswered::NotComplete => "bound",
            Unanswered::TooManyStates => "states",
        }
    }
}

/// Why it is not asked of so many states, which a search found that went so far; None where it is.
pub(crate) fn why_not(extent: SearchExtent, states: usize) -> Option<Unanswered>
    ensures { result ≡ why_not extent states }
{
    match extent {
        SearchExtent::Reduced => Some(Unanswered::NotAllStates),
        SearchExtent::Bounded => Some(Unanswered::NotComplete),
        SearchExtent::AllStates => too_many(states),
    }
}

/// That they are too many, where that is so.
fn too_many(states: usize) -> Option<Unanswered>
    ensures { result ≡ too_many states }
{
    if states > MOST_STATES {
        Some(Unanswered::TooManyStates)
    } else {
        None
    }
}
