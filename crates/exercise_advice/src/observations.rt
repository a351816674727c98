//! What a verdict shows, one thing each.

ghost use Rattle.std.specs.Prelude.{◌≡◌};
ghost use Rattle.exercise_advice.specs.Facts.{kind_number};

use expectations::FullEmpty;
use insn_word::Insn;
use processor::Step;
use stream_core::TrapKind;

/// What kind of thing a verdict shows.
#[derive(Clone, Copy, Debug, PartialEq, Eq)]
pub enum ObservationKind {
    /// At the end a stream waits for a word: the stream, the word, the state that it waits for, and its instruction.
    Waits = 0,
    /// A trap stopped a stream: the stream, the trap, and its instruction.
    Stopped = 1,
    /// A stream trapped, and its handler went on: the stream.
    Trapped = 2,
    /// At the end a stream runs and is not stuck: the stream, and its next instruction.
    Runs = 3,
    /// A stream executed an instruction: the stream, the word that its reference ended at, and the instruction.
    Did = 4,
    /// The program has an instruction: it, and the word that its reference names, if its pointer is r0.
    Has = 5,
    /// The program names a trap handler.
    Handler = 6,
    /// An expectation of the end is missed: the word that it speaks of.
    Missed = 7,
    /// A claim does not hold.
    Claim = 8,
    /// A rule of programs is broken.
    Rule = 9,
    /// A line names what the program lacks.
    Absent = 10,
    /// At the end a word has another value than at the start: the word.
    Changed = 11,
    /// At the end a word is full or empty: the word, and its state.
    Left = 12,
    /// An update is lost: the word.
    Lost = 13,
    /// Nobody read a store before another one: the word.
    Unread = 14,
    /// Two words were read of which one was old: each of them.
    Torn = 15,
}

impl ObservationKind {
    /// Its number, by which kinds are compared.
    pub(crate) fn number(self) -> u64
        ensures { result ≡ kind_number self }
    {
        self as u64
    }
}

/// One thing that a verdict shows. What it does not speak of is None.
#[derive(Clone, Copy, Debug, PartialEq, Eq)]
pub struct Observation {
    /// What kind of thing it is.
    pub kind: ObservationKind,
    /// The stream.
    pub stream: Option<Step>,
    /// The byte address of the word.
    pub address: Option<u64>,
    /// The state that is waited for, or in which the word is.
    pub state: Option<FullEmpty>,
    /// The trap.
    pub trap: Option<TrapKind>,
    /// The instruction.
    pub insn: Option<Insn>,
}

impl Observation {
    /// One of this kind that speaks of nothing else.
    pub(crate) const fn of(kind: ObservationKind) -> Observation {
        Observation {
            kind,
            stream: None,
            address: None,
            state: None,
            trap: None,
            insn: None,
        }
    }

    /// One of this kind about the word at a byte address.
    pub(crate) const fn at(kind: ObservationKind, address: u64) -> Observation {
        Observation {
            kind,
            stream: None,
            address: Some(address),
            state: None,
            trap: None,
            insn: None,
        }
    }

    /// One of this kind about a stream.
    pub(crate) const fn by(kind: ObservationKind, stream: Step) -> Observation {
        Observation {
            kind,
            stream: Some(stream),
            address: None,
            state: None,
            trap: None,
            insn: None,
        }
    }
}
