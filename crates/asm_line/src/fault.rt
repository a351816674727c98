//! What can be wrong with a line.

ghost use Rattle.std.specs.Prelude.{◌≡◌};
ghost use Rattle.asm_line.specs.Faults.{kind_number, least_fault, both};

/// The kinds of faults of a source text (docs/WRITING_PROGRAMS.md), in the order in which a line's are
/// answered.
#[derive(Clone, Copy, Debug, PartialEq, Eq)]
pub enum Fault {
    /// A byte of 80 or more (hexadecimal) stands on the line.
    NotAscii,
    /// The head, a suffix or the form of a label is unknown.
    Unknown,
    /// The count or the form of operands, or the order of parts is wrong.
    Operand,
    /// A number, or the value of a label, is outside its field.
    Range,
    /// Two operations of one word write the same register other than r0.
    TwoWriters,
    /// The label stands on an earlier line already.
    LabelTwice,
    /// A label that is used stands on no line.
    LabelMissing,
    /// A directive that may stand once stands a second time, or the text lacks entries, program words or cells.
    Directive,
    /// There are too many program words, cells or entries.
    Limit,
    /// Memory ran out.
    NoMemory,
}

impl Fault {
    /// The number of the kind, 1 to 10.
    pub fn number(self) -> u8
        ensures { result ≡ kind_number self }
    {
        match self {
            Fault::NotAscii => 1,
            Fault::Unknown => 2,
            Fault::Operand => 3,
            Fault::Range => 4,
            Fault::TwoWriters => 5,
            Fault::LabelTwice => 6,
            Fault::LabelMissing => 7,
            Fault::Directive => 8,
            Fault::Limit => 9,
            Fault::NoMemory => 10,
        }
    }

    /// Of two kinds the one that is answered.
    fn least(self, other: Fault) -> Fault
        ensures { result ≡ least_fault self other }
    {
        if self.number() <= other.number() {
            self
        } else {
            other
        }
    }
}

/// Both results, or the least fault of the two.
pub(crate) fn both<A: Drop, B: Drop>(
    first: Result<A, Fault>,
    second: Result<B, Fault>,
) -> Result<(A, B), Fault>
    ensures { result ≡ both first second }
{
    match (first, second) {
        (Ok(x), Ok(y)) => Ok((x, y)),
        (Ok(_), Err(fault)) => Err(fault),
        (Err(fault), Ok(_)) => Err(fault),
        (Err(fault), Err(other)) => Err(fault.least(other)),
    }
}
