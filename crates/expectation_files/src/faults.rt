//! What is wrong with a file of expectations.

ghost use Rattle.std.specs.Prelude.{◌≡◌};
ghost use Rattle.expectation_files.specs.OfProgram.{is_of_program};
ghost use Rattle.expectation_files.specs.declared.faults.FileFault.TheVariants.{NoMemory};
ghost use Rattle.expectation_files.specs.declared.faults.FileFault.TheVariants as file;
ghost use Rattle.expectation_files.specs.declared.faults.LineFault.{LineFault};
ghost use Rattle.expectation_files.specs.declared.faults.Unread.TheVariants as unread;

use std::alloc::{AllocError, AllocFailed};

/// The form of a line that begins with one word, or with one of a few.
#[derive(Clone, Copy, Debug, PartialEq, Eq)]
pub enum LineForm {
    /// `word`, about one word or two.
    Word,
    /// `words`, about each word of a range.
    Words,
    /// `sum`, about the words of a range together.
    Sum,
    /// `register`, about a register of a stream.
    Register,
    /// `finished`.
    Finished,
    /// `stopped`, about a trap.
    Stopped,
    /// `waits`, about a stream that may wait forever.
    Waits,
    /// `loops`.
    Loops,
    /// `always`, `never` or `some`, about the states on the way.
    Claim,
    /// `leads to`, about streams that come from one range of program words to another.
    Leads,
    /// `is overtaken`, about how many times a stream is overtaken while it waits.
    Overtaken,
    /// `may rest`, about where a stream need not be given steps.
    Rest,
    /// `entries`, about how many entries the program has.
    Entries,
    /// `at most N words`, about how many program words it has.
    MostWords,
    /// `forbid` or `require`, about the operations of the program.
    Operations,
    /// `each`, about a word that each of some streams writes.
    Each,
    /// `at least N streams`, about how many streams store to words.
    Least,
    /// `points`, about the case.
    Points,
    /// `hidden`.
    Hidden,
}

/// What is wrong with a word of a line.
#[derive(Clone, Copy, Debug, PartialEq, Eq)]
pub enum LineFaultKind {
    /// No line begins with this word.
    Unknown,
    /// The words of the line have another form than lines have that begin so.
    Form(LineForm),
    /// No memory has a word at this address: a multiple of 8 below 2,097,152.
    Address,
    /// No data word of the program has this name.
    Name,
    /// A range has two points between its ends.
    Points,
    /// The range ends before it begins.
    Range,
    /// No machine has such a stream: `P.S`, P to 15 and S to 127.
    Stream,
    /// The register is not `r0` to `r31`.
    Register,
    /// It is no number of 64 bits, or none of those that are compared with a sign.
    Number,
    /// The trap is no number from 1 to 10.
    Trap,
    /// It is no count: decimal digits, below 2^64.
    Count,
    /// No operation has this name.
    Operation,
    /// No number is above the greatest, or below the least, of those that are compared.
    Beyond,
    /// `busy` stands after `never` alone, and nothing after it.
    Busy,
    /// So does `starved`.
    Starved,
    /// The line, or the group of its claim, has named this stream before.
    Twice,
    /// The program has no word at this address.
    MissingWord,
    /// The program has no such stream.
    MissingStream,
    /// The program has no word of this number, or of this label.
    Place,
    /// The range of program words ends before it begins.
    PlaceRange,
    /// It is no number of points: decimal digits, 1,000 at most.
    Worth,
    /// A line above says how many points the case has.
    Again,
}

impl LineFaultKind {
    /// Whether the line may be right of another program: it names what this one lacks.
    pub fn is_of_program(self) -> bool
        ensures { result ≡ is_of_program self }
    {
        match self {
            LineFaultKind::Name
            | LineFaultKind::MissingWord
            | LineFaultKind::MissingStream
            | LineFaultKind::Place
            | LineFaultKind::PlaceRange => true,
            LineFaultKind::Unknown
            | LineFaultKind::Form(_)
            | LineFaultKind::Address
            | LineFaultKind::Points
            | LineFaultKind::Range
            | LineFaultKind::Stream
            | LineFaultKind::Register
            | LineFaultKind::Number
            | LineFaultKind::Trap
            | LineFaultKind::Count
            | LineFaultKind::Operation
            | LineFaultKind::Beyond
            | LineFaultKind::Busy
            | LineFaultKind::Starved
            | LineFaultKind::Twice
            | LineFaultKind::Worth
            | LineFaultKind::Again => false,
        }
    }
}

/// The first thing that is wrong with a line.
#[derive(Clone, Copy, Debug, PartialEq, Eq)]
pub struct LineFault {
    /// The word that is wrong, from 0 for the first of the line; the first where the line has too few words, or too many.
    pub word: usize,
    /// What is wrong with it.
    pub kind: LineFaultKind,
}

/// Why a text is no file of expectations of a program.
#[derive(Clone, Copy, Debug, PartialEq, Eq)]
pub enum FileFault {
    /// A line has a fault: the least line that has one.
    Line {
        /// The line, counted from 1.
        line: usize,
        /// What is wrong with it.
        fault: LineFault,
    },
    /// No line has a fault, and none says anything.
    Empty,
    /// Memory was refused.
    NoMemory,
}

impl From<AllocError> for FileFault {
    ghost from_gives = { λ _ fault. fault ≡ NoMemory };

    fn from(_error: AllocError) -> FileFault {
        FileFault::NoMemory
    }
}

impl<T: Drop> From<AllocFailed<T>> for FileFault {
    ghost from_gives = { λ _ fault. fault ≡ NoMemory };

    fn from(_error: AllocFailed<T>) -> FileFault {
        FileFault::NoMemory
    }
}

/// Why a line was not read.
#[derive(Clone, Copy, Debug, PartialEq, Eq)]
pub(crate) enum Unread {
    /// It has a fault.
    Fault(LineFault),
    /// Memory was refused.
    NoMemory,
}

impl Unread {
    /// What it means for a file where the line has this number, from 1.
    pub(crate) fn on_line(self, line: usize) -> FileFault
        ensures fault { (f : LineFault) → self ≡ unread.Fault f → result ≡ file.Line line f }
        ensures no_memory { self ≡ unread.NoMemory → result ≡ NoMemory }
    {
        match self {
            Unread::Fault(fault) => FileFault::Line { line, fault },
            Unread::NoMemory => FileFault::NoMemory,
        }
    }
}

impl From<LineFault> for Unread {
    ghost from_gives = { λ fault u. u ≡ unread.Fault fault };

    fn from(fault: LineFault) -> Unread {
        Unread::Fault(fault)
    }
}

impl From<AllocError> for Unread {
    ghost from_gives = { λ _ u. u ≡ unread.NoMemory };

    fn from(_error: AllocError) -> Unread {
        Unread::NoMemory
    }
}

impl<T: Drop> From<AllocFailed<T>> for Unread {
    ghost from_gives = { λ _ u. u ≡ unread.NoMemory };

    fn from(_error: AllocFailed<T>) -> Unread {
        Unread::NoMemory
    }
}

impl LineFault {
    /// This fault of the word of this number.
    pub(crate) fn at(word: usize, kind: LineFaultKind) -> LineFault
        ensures { result ≡ record { word = word; kind = kind } }
    {
        LineFault { word, kind }
    }
}
