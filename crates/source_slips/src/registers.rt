//! What registers hold for certain.

use insn_word::{APart, ArithmeticOp, Insn, WideOp};

/// What is known of a register.
#[derive(Clone, Copy, PartialEq, Eq)]
pub(crate) struct KnownRegister {
    /// Its low 32 bits.
    low: Option<u64>,
    /// Its high 32 bits.
    pub(crate) high: Option<u64>,
    /// The word of the program whose LIT set it.
    pub(crate) literal: Option<usize>,
}

impl KnownRegister {
    /// Nothing.
    pub(crate) const NOTHING: KnownRegister = KnownRegister {
        low: None,
        high: None,
        literal: None,
    };

    /// That of r0.
    pub(crate) const ZERO: KnownRegister = KnownRegister {
        low: Some(0),
        high: Some(0),
        literal: None,
    };

    /// That of a register that may hold a known value.
    fn of(value: Option<u64>) -> KnownRegister {
        match value {
            Some(value) => KnownRegister {
                low: Some(value & 0xFFFF_FFFF),
                high: Some(value >> 32),
                literal: None,
            },
            None => KnownRegister::NOTHING,
        }
    }

    /// Its value, if all of it is known.
    pub(crate) fn value(self) -> Option<u64> {
        Some(self.high? << 32 | self.low?)
    }

    /// What holds of both.
    pub(crate) fn and(self, other: KnownRegister) -> KnownRegister {
        KnownRegister {
            low: if self.low == other.low {
                self.low
            } else {
                None
            },
            high: if self.high == other.high {
                self.high
            } else {
                None
            },
            literal: if self.literal == other.literal {
                self.literal
            } else {
                None
            },
        }
    }

    /// What is known after a wide operation of the register at a word of the program.
    fn after_wide(self, place: usize, op: WideOp, immediate: u64) -> KnownRegister {
        match op {
            WideOp::Literal => KnownRegister {
                low: Some(immediate),
                high: Some(0),
                literal: Some(place),
            },
            WideOp::LiteralHigh => KnownRegister {
                low: self.low,
                high: Some(immediate),
                literal: None,
            },
            WideOp::TargetLiteral => self,
        }
    }

    /// What is known of a register after the instruction of a word of the program, whose arithmetic computes this.
    pub(crate) fn after(
        self,
        register: u8,
        place: usize,
        insn: &Insn,
        computed: KnownRegister,
    ) -> KnownRegister {
        match *insn {
            Insn::Wide { op, reg, imm, .. } => {
                if reg == register {
                    self.after_wide(place, op, u64::from(imm))
                } else {
                    self
                }
            }
            Insn::Normal { m, a, c, .. } => {
                if a.destination() == register {
                    computed
                } else if m.destination() == register || c.destination() == register {
                    KnownRegister::NOTHING
                } else {
                    self
                }
            }
        }
    }
}

/// What is known of the registers of each stream that has come to a word by the words right before it.
#[derive(Clone, Copy)]
pub(crate) struct KnownRegisters {
    known: [KnownRegister; 32],
}

impl KnownRegisters {
    /// None is known.
    pub(crate) const NEW: KnownRegisters = KnownRegisters {
        known: [KnownRegister::NOTHING; 32],
    };

    fn known(&self, register: u8) -> KnownRegister {
        match register {
            0 => KnownRegister::ZERO,
            _ => match self.known.get(usize::from(register)) {
                Some(known) => *known,
                None => KnownRegister::NOTHING,
            },
        }
    }

    fn set(&mut self, register: u8, known: KnownRegister) {
        let place = usize::from(register);
        if place < self.known.len() {
            self.known[place] = known;
        }
    }

    /// Takes the instruction of a word of the program, whose arithmetic computes this.
    pub(crate) fn take(&mut self, place: usize, insn: &Insn, computed: KnownRegister) {
        match *insn {
            Insn::Wide { op, reg, imm, .. } => {
                if op != WideOp::TargetLiteral {
                    let after = self.known(reg).after_wide(place, op, u64::from(imm));
                    self.set(reg, after);
                }
            }
            Insn::Normal { m, a, c, .. } => {
                self.set(m.destination(), KnownRegister::NOTHING);
                self.set(c.destination(), KnownRegister::NOTHING);
                self.set(a.destination(), computed);
            }
        }
    }

    /// What is known of the result of an instruction's arithmetic.
    pub(crate) fn result(&self, insn: &Insn) -> KnownRegister {
        match *insn {
            Insn::Wide { .. } => KnownRegister::NOTHING,
            Insn::Normal { a, .. } => KnownRegister::of(self.result_of(a)),
        }
    }

    /// The result of an arithmetic operation of known numbers.
    fn result_of(&self, a: APart) -> Option<u64> {
        let one = self.known(a.ra).value()?;
        let other = if a.imm {
            u64::from(a.rb)
        } else {
            self.known(a.rb).value()?
        };
        match a.op {
            ArithmeticOp::Add => Some(one.wrapping_add(other)),
            ArithmeticOp::Sub => Some(one.wrapping_sub(other)),
            ArithmeticOp::Mul => Some(one.wrapping_mul(other)),
            ArithmeticOp::ShiftLeft if other < 64 => Some(one.wrapping_shl(other as u32)),
            _ => None,
        }
    }
}
