//! The words of a fact.

use crate::facts::{SoughtFact, SoughtOperation, Suffix};
use crate::lines::AdviceFaultKind;
use crate::observations::ObservationKind;
use expectations::FullEmpty;
use insn_word::Access;
use processor::Step;
use program_rules::ProgramOperation;

/// All kinds of observations.
const KINDS: [ObservationKind; 16] = [
    ObservationKind::Waits,
    ObservationKind::Stopped,
    ObservationKind::Trapped,
    ObservationKind::Runs,
    ObservationKind::Did,
    ObservationKind::Has,
    ObservationKind::Handler,
    ObservationKind::Missed,
    ObservationKind::Claim,
    ObservationKind::Rule,
    ObservationKind::Absent,
    ObservationKind::Changed,
    ObservationKind::Left,
    ObservationKind::Lost,
    ObservationKind::Unread,
    ObservationKind::Torn,
];

impl ObservationKind {
    /// The kind of a name; None where no kind is called so.
    pub(crate) fn named(name: &str) -> Option<ObservationKind> {
        KINDS
            .iter()
            .copied()
            .find(|kind: &ObservationKind| kind.name() == name)
    }

    /// What it is called in files of advice.
    fn name(self) -> &'static str {
        match self {
            ObservationKind::Waits => "waits",
            ObservationKind::Stopped => "stopped",
            ObservationKind::Trapped => "trapped",
            ObservationKind::Runs => "runs",
            ObservationKind::Did => "did",
            ObservationKind::Has => "has",
            ObservationKind::Handler => "handler",
            ObservationKind::Missed => "missed",
            ObservationKind::Claim => "claim",
            ObservationKind::Rule => "rule",
            ObservationKind::Absent => "absent",
            ObservationKind::Changed => "changed",
            ObservationKind::Left => "left",
            ObservationKind::Lost => "lost",
            ObservationKind::Unread => "unread",
            ObservationKind::Torn => "torn",
        }
    }

    /// Whether observations of this kind can have a part like this one.
    fn has(self, part: FactPart) -> bool {
        match part {
            FactPart::Times(_) => true,
            FactPart::Stream(_) => matches!(
                self,
                ObservationKind::Waits
                    | ObservationKind::Stopped
                    | ObservationKind::Trapped
                    | ObservationKind::Runs
                    | ObservationKind::Did
            ),
            FactPart::Address(_) => matches!(
                self,
                ObservationKind::Waits
                    | ObservationKind::Did
                    | ObservationKind::Has
                    | ObservationKind::Missed
                    | ObservationKind::Changed
                    | ObservationKind::Left
                    | ObservationKind::Lost
                    | ObservationKind::Unread
                    | ObservationKind::Torn
            ),
            FactPart::State(_) => matches!(self, ObservationKind::Waits | ObservationKind::Left),
            FactPart::Trap(_) => matches!(self, ObservationKind::Stopped),
            FactPart::Operation(_) => matches!(
                self,
                ObservationKind::Waits
                    | ObservationKind::Stopped
                    | ObservationKind::Runs
                    | ObservationKind::Did
                    | ObservationKind::Has
            ),
        }
    }
}

/// A part of a fact.
#[derive(Clone, Copy)]
enum FactPart {
    /// `1.0`, a stream.
    Stream(Step),
    /// `[8]`, a word by its byte address.
    Address(u64),
    /// `full` or `empty`.
    State(FullEmpty),
    /// `5`, a trap by its number.
    Trap(u8),
    /// `LOAD.S`, an operation with its suffix, or without one.
    Operation(SoughtOperation),
    /// `x2`, how many times at least.
    Times(usize),
}

/// The part that a word is; None where it is none.
fn part_of(word: &str) -> Option<FactPart> {
    if let Some(stream) = stream_of(word) {
        return Some(FactPart::Stream(stream));
    }
    if let Some(address) = address_of(word) {
        return Some(FactPart::Address(address));
    }
    if let Some(operation) = operation_of(word) {
        return Some(FactPart::Operation(operation));
    }
    if let Some(times) = times_of(word) {
        return Some(FactPart::Times(times));
    }
    match word {
        "full" => Some(FactPart::State(FullEmpty::Full)),
        "empty" => Some(FactPart::State(FullEmpty::Empty)),
        _ => Some(FactPart::Trap(number_of(word)?)),
    }
}

/// `1.0`.
fn stream_of(word: &str) -> Option<Step> {
    let (p, s) = word.split_once('.')?;
    Some(Step {
        p: number_of(p)?,
        s: number_of(s)?,
    })
}

/// A number of digits alone, below 256.
fn number_of(digits: &str) -> Option<u8> {
    if digits.bytes().all(|byte| byte.is_ascii_digit()) {
        digits.parse::<u8>().ok()
    } else {
        None
    }
}

/// `[8]`.
fn address_of(word: &str) -> Option<u64> {
    let inner = word.strip_prefix("[")?.strip_suffix("]")?;
    inner.parse::<u64>().ok()
}

/// `x2`.
fn times_of(word: &str) -> Option<usize> {
    word.strip_prefix("x")?.parse::<usize>().ok()
}

/// `LOAD.S`, `LOAD`, `SUB.T` or `QUIT`.
fn operation_of(word: &str) -> Option<SoughtOperation> {
    let Some((name, suffix)) = word.split_once('.') else {
        return Some(SoughtOperation {
            operation: ProgramOperation::named(word.as_bytes())?,
            suffix: None,
        });
    };
    let operation = ProgramOperation::named(name.as_bytes())?;
    Some(SoughtOperation {
        operation,
        suffix: Some(suffix_of(operation, suffix)?),
    })
}

/// The suffix of an operation that stands after the point.
fn suffix_of(operation: ProgramOperation, suffix: &str) -> Option<Suffix> {
    match operation {
        ProgramOperation::Memory(_) => match suffix {
            "N" => Some(Suffix::Memory(Access::Normal)),
            "F" => Some(Suffix::Memory(Access::Future)),
            "S" => Some(Suffix::Memory(Access::Sync)),
            _ => None,
        },
        ProgramOperation::Arithmetic(_) => match suffix {
            "T" => Some(Suffix::Test),
            _ => None,
        },
        ProgramOperation::Wide(_) | ProgramOperation::Control(_) => None,
    }
}

impl SoughtFact {
    /// The fact that an observation of this kind is seen, or that none is.
    pub(crate) fn of(kind: ObservationKind, is_wanted: bool) -> SoughtFact {
        SoughtFact {
            is_wanted,
            times: 1,
            kind,
            stream: None,
            address: None,
            state: None,
            trap: None,
            operation: None,
        }
    }

    /// The same fact with one more of its words; an error where the word is no part of it.
    pub(crate) fn with_word(self, word: &str) -> Result<SoughtFact, AdviceFaultKind> {
        let Some(part) = part_of(word) else {
            return Err(AdviceFaultKind::Part);
        };
        if !self.kind.has(part) {
            return Err(AdviceFaultKind::Part);
        }
        if self.has(part) {
            return Err(AdviceFaultKind::Twice);
        }
        Ok(self.with(part))
    }

    /// Whether it has a part like this one.
    fn has(self, part: FactPart) -> bool {
        match part {
            FactPart::Stream(_) => self.stream.is_some(),
            FactPart::Address(_) => self.address.is_some(),
            FactPart::State(_) => self.state.is_some(),
            FactPart::Trap(_) => self.trap.is_some(),
            FactPart::Operation(_) => self.operation.is_some(),
            FactPart::Times(_) => self.times != 1,
        }
    }

    /// The same fact with this part.
    fn with(self, part: FactPart) -> SoughtFact {
        let mut fact = self;
        match part {
            FactPart::Stream(stream) => fact.stream = Some(stream),
            FactPart::Address(address) => fact.address = Some(address),
            FactPart::State(state) => fact.state = Some(state),
            FactPart::Trap(trap) => fact.trap = Some(trap),
            FactPart::Operation(operation) => fact.operation = Some(operation),
            FactPart::Times(times) => fact.times = times,
        }
        fact
    }
}
