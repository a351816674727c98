//! The forms of operands.

/// What an operand has to be.
#[derive(Clone, Copy)]
pub(crate) enum OperandForm {
    /// A register.
    Register,
    /// The register that holds a pointer.
    Base,
    /// A target register.
    Target,
    /// The last operand of an arithmetic operation.
    Source,
    /// How many words after the pointer.
    Displacement,
    /// A number of 32 bits or a label, for a register.
    Value,
    /// A number of 32 bits or a label, for a pc.
    Pc,
    /// A condition.
    Condition,
    /// The place of a condition code.
    Code,
    /// How far SKIP goes, or to which label.
    Distance,
    /// The mask of MASK.
    Mask,
    /// The number of a profile.
    Profile,
    /// The most streams of a processor.
    Slim,
    /// A chain limit.
    Chain,
    /// A retry limit.
    Retry,
    /// An instruction line, by its number or label.
    Entry,
    /// A number of 64 bits.
    Word,
    /// The tags of a data word.
    Tags,
    /// How many data words.
    Count,
    /// The number after the `@` of a lookahead.
    Lookahead,
}

impl OperandForm {
    /// What stands before and after an operand of this form in a statement that has no fault but the operand's.
    pub(crate) fn frame(self) -> (&'static str, &'static str) {
        match self {
            OperandForm::Register => ("XGET ", ""),
            OperandForm::Base => ("LOAD r0, ", ", 0"),
            OperandForm::Target => ("XCHG ", ""),
            OperandForm::Source => ("ADD r0, r0, ", ""),
            OperandForm::Displacement => ("LOAD r0, r0, ", ""),
            OperandForm::Value | OperandForm::Pc => ("LIT r0, ", ""),
            OperandForm::Condition => ("JUMP ", ", 0, t0"),
            OperandForm::Code => ("JUMP ALWAYS, ", ", t0"),
            OperandForm::Distance => ("SKIP ALWAYS, 0, ", ""),
            OperandForm::Mask => ("MASK ", ""),
            OperandForm::Profile => (".profile ", ""),
            OperandForm::Slim => (".slim ", ""),
            OperandForm::Chain => (".chain ", ""),
            OperandForm::Retry => (".retry ", ""),
            OperandForm::Entry => (".entry ", ""),
            OperandForm::Word => (".word ", ""),
            OperandForm::Tags => (".data 0, ", ""),
            OperandForm::Count => (".fill ", ", 0, 0"),
            OperandForm::Lookahead => ("@", " NOP"),
        }
    }

    /// What the operand is.
    pub(crate) fn noun(self) -> &'static str {
        match self {
            OperandForm::Register | OperandForm::Base => "a register",
            OperandForm::Target => "a target register",
            OperandForm::Source => "a register or number",
            OperandForm::Displacement => "a number of words",
            OperandForm::Value | OperandForm::Pc | OperandForm::Entry => "a number or label",
            OperandForm::Condition => "a condition",
            OperandForm::Code => "the number of a code",
            OperandForm::Distance => "a number of words or a label",
            OperandForm::Mask
            | OperandForm::Profile
            | OperandForm::Slim
            | OperandForm::Chain
            | OperandForm::Retry
            | OperandForm::Word
            | OperandForm::Tags
            | OperandForm::Count
            | OperandForm::Lookahead => "a number",
        }
    }

    /// What the operand is, in a list of operands.
    pub(crate) fn listed(self) -> &'static str {
        match self {
            OperandForm::Word => "a value",
            OperandForm::Tags => "tags",
            OperandForm::Count => "a count",
            _ => self.noun(),
        }
    }

    /// What the operand is, with its limits.
    pub(crate) fn limits(self) -> &'static str {
        match self {
            OperandForm::Register | OperandForm::Base => "a register r0 to r31",
            OperandForm::Target => "a target register t0 to t7",
            OperandForm::Source => "a register or a number 0 to 31",
            OperandForm::Displacement => "-32 to 31 words",
            OperandForm::Value | OperandForm::Pc | OperandForm::Retry => "a number of 32 bits",
            OperandForm::Condition => "a condition",
            OperandForm::Code => "0 to 3",
            OperandForm::Distance => "-128 to 127 words",
            OperandForm::Mask | OperandForm::Lookahead => "0 to 7",
            OperandForm::Profile => "1 or 2",
            OperandForm::Slim => "1 to 128",
            OperandForm::Chain => "0 to 64",
            OperandForm::Entry => "the number of an instruction line, from 0",
            OperandForm::Word => "a number of 64 bits",
            OperandForm::Tags => "0 to 15",
            OperandForm::Count => "1 to 262144",
        }
    }

    /// What to write for such an operand.
    pub(crate) fn advice(self) -> &'static str {
        match self {
            OperandForm::Register => "registers are r0 to r31",
            OperandForm::Base => "the pointer stands in a register, r0 to r31; r0 is always 0",
            OperandForm::Target => "target registers are t0 to t7",
            OperandForm::Source => "write r0 to r31, or a number 0 to 31",
            OperandForm::Displacement => "write a number of words, -32 to 31",
            OperandForm::Condition =>
                "ALWAYS, EQ, NE, LT, GE, LE, GT, LTU, GEU, LEU, GTU, NEG, POS, OV or NOV",
            OperandForm::Code => "0 is the newest code, 3 the oldest",
            OperandForm::Tags => "0 is an empty word, 1 a full one",
            OperandForm::Value
            | OperandForm::Pc
            | OperandForm::Distance
            | OperandForm::Mask
            | OperandForm::Profile
            | OperandForm::Slim
            | OperandForm::Chain
            | OperandForm::Retry
            | OperandForm::Entry
            | OperandForm::Word
            | OperandForm::Count
            | OperandForm::Lookahead => "numbers are decimal, or 0x and hexadecimal digits",
        }
    }
}
