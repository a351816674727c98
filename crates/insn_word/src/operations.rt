//! The operations, accesses and conditions, with their numbers in an instruction word.

ghost use Rattle.std.specs.Prelude.{◌≡◌, ◌≤◌, IfSome, IfNone};
ghost use Rattle.insn_word.specs.Operations.{wide_number, memory_number, access_number};
ghost use Rattle.insn_word.specs.Operations.{arithmetic_number, control_number, condition_number};

/// The operations of wide words ("Wide operations", docs/MACHINE.md).
#[derive(Clone, Copy, Debug, PartialEq, Eq)]
pub enum WideOp {
    /// LIT: the register becomes the immediate.
    Literal = 0,
    /// LITH: the register keeps its low 32 bits, and the immediate becomes its high 32 bits.
    LiteralHigh = 1,
    /// TLIT: the pc of a target register (0 to 7) becomes the immediate, and its other fields zero.
    TargetLiteral = 2,
}

impl WideOp {
    /// Its number in an instruction word.
    pub(crate) fn number(self) -> u64
        ensures { result ≡ wide_number self }
    {
        self as u64
    }

    /// The wide operation with this number; None where there is none.
    pub(crate) fn from_number(number: u64) -> Option<WideOp>
        ensures found { IfSome result (λ wide. wide_number wide ≡ number) }
        ensures none { IfNone result (3 ≤ number) }
    {
        match number {
            0 => Some(WideOp::Literal),
            1 => Some(WideOp::LiteralHigh),
            2 => Some(WideOp::TargetLiteral),
            _ => None,
        }
    }

    /// All wide operations, in the order of their numbers.
    pub const ALL: [WideOp; 3] = [WideOp::Literal, WideOp::LiteralHigh, WideOp::TargetLiteral];
}

/// The memory operations of normal words ("Memory operations", docs/MACHINE.md).
#[derive(Clone, Copy, Debug, PartialEq, Eq)]
pub enum MemoryOp {
    /// NOP: no memory operation.
    Nop = 0,
    /// LOAD: `rd` becomes the word.
    Load = 1,
    /// STORE: the word becomes `rd`.
    Store = 2,
    /// FADD: `rd` is added to the word, and becomes the old value.
    FetchAdd = 3,
    /// TAGGET: `rd` becomes the tags of the word.
    TagGet = 4,
    /// TAGSET: the tags of the word become the four low bits of `rd`.
    TagSet = 5,
    /// PURGE: the word becomes `rd`, and empty. Profile 2 alone has it.
    Purge = 6,
}

impl MemoryOp {
    /// Its number in an instruction word.
    pub(crate) fn number(self) -> u64
        ensures { result ≡ memory_number self }
    {
        self as u64
    }

    /// The memory operation with this number; None where there is none.
    pub(crate) fn from_number(number: u64) -> Option<MemoryOp>
        ensures found { IfSome result (λ memory. memory_number memory ≡ number) }
        ensures none { IfNone result (7 ≤ number) }
    {
        match number {
            0 => Some(MemoryOp::Nop),
            1 => Some(MemoryOp::Load),
            2 => Some(MemoryOp::Store),
            3 => Some(MemoryOp::FetchAdd),
            4 => Some(MemoryOp::TagGet),
            5 => Some(MemoryOp::TagSet),
            6 => Some(MemoryOp::Purge),
            _ => None,
        }
    }

    /// All memory operations, in the order of their numbers.
    pub const ALL: [MemoryOp; 7] = [
        MemoryOp::Nop,
        MemoryOp::Load,
        MemoryOp::Store,
        MemoryOp::FetchAdd,
        MemoryOp::TagGet,
        MemoryOp::TagSet,
        MemoryOp::Purge,
    ];
}

/// Which control a memory operation obeys ("The full/empty table", docs/MACHINE.md).
#[derive(Clone, Copy, Debug, PartialEq, Eq)]
pub enum Access {
    /// The control that the pointer carries.
    FromPointer = 0,
    /// Normal: whether the word is full or empty does not matter.
    Normal = 1,
    /// Future: the word has to be full, and stays so.
    Future = 2,
    /// Sync: a load empties the full word, a store fills the empty one.
    Sync = 3,
}

impl Access {
    /// Its number in an instruction word.
    pub(crate) fn number(self) -> u64
        ensures { result ≡ access_number self }
    {
        self as u64
    }

    /// The access with this number; None where there is none.
    pub(crate) fn from_number(number: u64) -> Option<Access>
        ensures found { IfSome result (λ access. access_number access ≡ number) }
        ensures none { IfNone result (4 ≤ number) }
    {
        match number {
            0 => Some(Access::FromPointer),
            1 => Some(Access::Normal),
            2 => Some(Access::Future),
            3 => Some(Access::Sync),
            _ => None,
        }
    }

    /// All accesses, in the order of their numbers.
    pub const ALL: [Access; 4] = [
        Access::FromPointer,
        Access::Normal,
        Access::Future,
        Access::Sync,
    ];
}

/// The arithmetic operations of normal words ("Arithmetic operations", docs/MACHINE.md). `a` is the first operand,
/// `b` the second; results are modulo 2^64.
#[derive(Clone, Copy, Debug, PartialEq, Eq)]
pub enum ArithmeticOp {
    /// NOP: no arithmetic operation.
    Nop = 0,
    /// ADD: `a + b`.
    Add = 1,
    /// SUB: `a - b`.
    Sub = 2,
    /// MUL: `a` times `b`.
    Mul = 3,
    /// AND, bit by bit.
    And = 4,
    /// OR, bit by bit.
    Or = 5,
    /// XOR, bit by bit.
    Xor = 6,
    /// ANDN: `a` and not `b`, bit by bit.
    AndNot = 7,
    /// SHL: `a` shifted left by `b`, zeros in; 0 where `b` is 64 or more.
    ShiftLeft = 8,
    /// SHR: `a` shifted right by `b`, zeros in; 0 where `b` is 64 or more.
    ShiftRight = 9,
    /// SAR: `a` shifted right by `b`, its sign in; nothing but signs where `b` is 64 or more.
    ShiftRightSigned = 10,
    /// TALLY: the number of ones in `a`.
    Tally = 11,
    /// LTS: 1 where `a` is below `b` as signed numbers, else 0.
    LessSigned = 12,
    /// LTU: 1 where `a` is below `b` as unsigned numbers, else 0.
    LessUnsigned = 13,
    /// PTR: `a` with bits 59 to 63 replaced by the five low bits of `b`.
    Pointer = 14,
}

impl ArithmeticOp {
    /// Its number in an instruction word.
    pub(crate) fn number(self) -> u64
        ensures { result ≡ arithmetic_number self }
    {
        self as u64
    }

    /// The arithmetic operation with this number; None where there is none.
    pub(crate) fn from_number(number: u64) -> Option<ArithmeticOp>
        ensures found { IfSome result (λ arithmetic. arithmetic_number arithmetic ≡ number) }
        ensures none { IfNone result (15 ≤ number) }
    {
        match number {
            0 => Some(ArithmeticOp::Nop),
            1 => Some(ArithmeticOp::Add),
            2 => Some(ArithmeticOp::Sub),
            3 => Some(ArithmeticOp::Mul),
            4 => Some(ArithmeticOp::And),
            5 => Some(ArithmeticOp::Or),
            6 => Some(ArithmeticOp::Xor),
            7 => Some(ArithmeticOp::AndNot),
            8 => Some(ArithmeticOp::ShiftLeft),
            9 => Some(ArithmeticOp::ShiftRight),
            10 => Some(ArithmeticOp::ShiftRightSigned),
            11 => Some(ArithmeticOp::Tally),
            12 => Some(ArithmeticOp::LessSigned),
            13 => Some(ArithmeticOp::LessUnsigned),
            14 => Some(ArithmeticOp::Pointer),
            _ => None,
        }
    }

    /// All arithmetic operations, in the order of their numbers.
    pub const ALL: [ArithmeticOp; 15] = [
        ArithmeticOp::Nop,
        ArithmeticOp::Add,
        ArithmeticOp::Sub,
        ArithmeticOp::Mul,
        ArithmeticOp::And,
        ArithmeticOp::Or,
        ArithmeticOp::Xor,
        ArithmeticOp::AndNot,
        ArithmeticOp::ShiftLeft,
        ArithmeticOp::ShiftRight,
        ArithmeticOp::ShiftRightSigned,
        ArithmeticOp::Tally,
        ArithmeticOp::LessSigned,
        ArithmeticOp::LessUnsigned,
        ArithmeticOp::Pointer,
    ];
}

/// The control operations of normal words ("Control operations", docs/MACHINE.md).
#[derive(Clone, Copy, Debug, PartialEq, Eq)]
pub enum ControlOp {
    /// NOP: no control operation; on to the next word.
    Nop = 0,
    /// JUMP: where the condition holds, to the pc of target `t`.
    Jump = 1,
    /// SKIP: where the condition holds, `n` words further than the next.
    Skip = 2,
    /// CALL: target `u` becomes the next pc; on at the pc of target `t`.
    Call = 3,
    /// XCHG: the status word and target `t` change places.
    Exchange = 4,
    /// TSET: target `t` becomes the status word that `ra` says.
    TargetSet = 5,
    /// TGET: `rd` becomes target `t`.
    TargetGet = 6,
    /// XGET: `rd` becomes the trap register.
    TrapGet = 7,
    /// RESERVE: asks for `ra` more streams; `rd` becomes the number granted.
    Reserve = 8,
    /// CREATE: starts a stream at the pc of target `t` with the value of `ra`.
    Create = 9,
    /// QUIT: the stream becomes idle, its reservation is released.
    Quit = 10,
    /// QUITP: the stream becomes idle, its reservation is kept.
    QuitKeep = 11,
    /// MASK: the trap mask becomes `n`.
    Mask = 12,
}

impl ControlOp {
    /// Its number in an instruction word.
    pub(crate) fn number(self) -> u64
        ensures { result ≡ control_number self }
    {
        self as u64
    }

    /// The control operation with this number; None where there is none.
    pub(crate) fn from_number(number: u64) -> Option<ControlOp>
        ensures found { IfSome result (λ control. control_number control ≡ number) }
        ensures none { IfNone result (13 ≤ number) }
    {
        match number {
            0 => Some(ControlOp::Nop),
            1 => Some(ControlOp::Jump),
            2 => Some(ControlOp::Skip),
            3 => Some(ControlOp::Call),
            4 => Some(ControlOp::Exchange),
            5 => Some(ControlOp::TargetSet),
            6 => Some(ControlOp::TargetGet),
            7 => Some(ControlOp::TrapGet),
            8 => Some(ControlOp::Reserve),
            9 => Some(ControlOp::Create),
            10 => Some(ControlOp::Quit),
            11 => Some(ControlOp::QuitKeep),
            12 => Some(ControlOp::Mask),
            _ => None,
        }
    }

    /// All control operations, in the order of their numbers.
    pub const ALL: [ControlOp; 13] = [
        ControlOp::Nop,
        ControlOp::Jump,
        ControlOp::Skip,
        ControlOp::Call,
        ControlOp::Exchange,
        ControlOp::TargetSet,
        ControlOp::TargetGet,
        ControlOp::TrapGet,
        ControlOp::Reserve,
        ControlOp::Create,
        ControlOp::Quit,
        ControlOp::QuitKeep,
        ControlOp::Mask,
    ];
}

/// Conditions on a condition code ("Conditions", docs/MACHINE.md).
#[derive(Clone, Copy, Debug, PartialEq, Eq)]
pub enum Condition {
    /// ALWAYS: on each code.
    Always = 0,
    /// EQ: the result is zero.
    Equal = 1,
    /// NE: the result is not zero.
    NotEqual = 2,
    /// LT: negative differs from overflow.
    Less = 3,
    /// GE: not LT.
    GreaterEqual = 4,
    /// LE: EQ or LT.
    LessEqual = 5,
    /// GT: not LE.
    Greater = 6,
    /// LTU: carry.
    LessUnsigned = 7,
    /// GEU: not LTU.
    GreaterEqualUnsigned = 8,
    /// LEU: LTU or EQ.
    LessEqualUnsigned = 9,
    /// GTU: not LEU.
    GreaterUnsigned = 10,
    /// NEG: negative.
    Negative = 11,
    /// POS: not negative.
    Positive = 12,
    /// OV: overflow.
    Overflow = 13,
    /// NOV: no overflow.
    NoOverflow = 14,
}

impl Condition {
    /// Its number in an instruction word.
    pub(crate) fn number(self) -> u64
        ensures { result ≡ condition_number self }
    {
        self as u64
    }

    /// The condition with this number; None where there is none.
    pub(crate) fn from_number(number: u64) -> Option<Condition>
        ensures found { IfSome result (λ condition. condition_number condition ≡ number) }
        ensures none { IfNone result (15 ≤ number) }
    {
        match number {
            0 => Some(Condition::Always),
            1 => Some(Condition::Equal),
            2 => Some(Condition::NotEqual),
            3 => Some(Condition::Less),
            4 => Some(Condition::GreaterEqual),
            5 => Some(Condition::LessEqual),
            6 => Some(Condition::Greater),
            7 => Some(Condition::LessUnsigned),
            8 => Some(Condition::GreaterEqualUnsigned),
            9 => Some(Condition::LessEqualUnsigned),
            10 => Some(Condition::GreaterUnsigned),
            11 => Some(Condition::Negative),
            12 => Some(Condition::Positive),
            13 => Some(Condition::Overflow),
            14 => Some(Condition::NoOverflow),
            _ => None,
        }
    }

    /// All conditions, in the order of their numbers.
    pub const ALL: [Condition; 15] = [
        Condition::Always,
        Condition::Equal,
        Condition::NotEqual,
        Condition::Less,
        Condition::GreaterEqual,
        Condition::LessEqual,
        Condition::Greater,
        Condition::LessUnsigned,
        Condition::GreaterEqualUnsigned,
        Condition::LessEqualUnsigned,
        Condition::GreaterUnsigned,
        Condition::Negative,
        Condition::Positive,
        Condition::Overflow,
        Condition::NoOverflow,
    ];
}
