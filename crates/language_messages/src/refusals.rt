//! Why requests are refused.

ghost use Rattle.std.specs.Prelude.{◌≡◌};
ghost use Rattle.language_messages.specs.Numbers.{error_number};

use std::alloc::{AllocError, AllocFailed};

/// The kinds of errors, by the protocol's numbers.
#[derive(Clone, Copy, Debug, PartialEq, Eq)]
pub enum RefusalKind {
    /// A message is no JSON, or is longer than is taken.
    NotJson,
    /// It is no request, or it may not come now.
    NotNow,
    /// There is no such method.
    NoMethod,
    /// Its parameters are not those of its method, or what it asks for can't be done.
    Parameters,
    /// `initialize` has not come yet.
    NotInitialized,
    /// Memory was refused.
    NoMemory,
}

impl RefusalKind {
    /// The number of the error, without its sign: all are negative.
    pub fn number(self) -> u64
        ensures { result ≡ error_number self }
    {
        match self {
            RefusalKind::NotJson => 32_700,
            RefusalKind::NotNow => 32_600,
            RefusalKind::NoMethod => 32_601,
            RefusalKind::Parameters => 32_602,
            RefusalKind::NotInitialized => 32_002,
            RefusalKind::NoMemory => 32_603,
        }
    }
}

/// Why a request is refused.
#[derive(Clone, Copy, Debug)]
pub struct Refusal {
    /// The kind of the error.
    pub kind: RefusalKind,
    /// The reason, in a sentence.
    pub words: &'static str,
}

impl Refusal {
    /// Wrong parameters, or what can't be done, for a reason in words.
    pub fn of_parameters(words: &'static str) -> Refusal
        ensures kind { result.kind ≡ RefusalKind.Parameters }
        ensures words { result.words.now ≡ words.now }
    {
        Refusal {
            kind: RefusalKind::Parameters,
            words,
        }
    }

    /// No memory.
    const NO_MEMORY: Refusal = Refusal {
        kind: RefusalKind::NoMemory,
        words: "no memory",
    };
}

impl From<AllocError> for Refusal {
    fn from(_error: AllocError) -> Refusal {
        Refusal::NO_MEMORY
    }
}

impl<T: Drop> From<AllocFailed<T>> for Refusal {
    fn from(_error: AllocFailed<T>) -> Refusal {
        Refusal::NO_MEMORY
    }
}
