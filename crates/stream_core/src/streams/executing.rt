//! What a step does to its stream: each operand is read as it stood before, and all is written at once.

ghost use Rattle.std.specs.Prelude.{◌≡◌, ℕ};
ghost use Rattle.insn_word.specs.ShortInsns.{short_instruction, reference_instruction};
ghost use Rattle.stream_core.specs.Conditions.{condition_holds};
ghost use Rattle.stream_core.specs.ShortEffects.{pc_after_control};
ghost use Rattle.stream_core.specs.Effects.{arithmetic_value, ssw_before_control, code_at, control_holds, skip_pc};
ghost use Rattle.stream_core.specs.Effects.{retries_after};
ghost use Rattle.stream_core.specs.Effects.{control_ssw, control_targets, control_value};
ghost use Rattle.stream_core.specs.Effects.{after_wide, after_parts, after_instruction};
ghost use Rattle.stream_core.specs.StreamRow.{plan_of, after_blocked_reply, after_reply, stream_row};
ghost use Rattle.tag_memory.specs.declared.requests.Request.{Request};

use super::Stream;
use crate::arithmetic::{alu, code_of, value_of};
use crate::conditions::holds;
use crate::conversions::trap_of;
use crate::status_words::{StatusWord, TrapMask};
use crate::steps::{Fetch, Outcome, Plan};
use crate::traps::TrapKind;
use insn_word::{
    APart, CPart, Condition, ControlOp, Insn, MPart, MemoryOp, Profile, ReferenceInsn,
    ShortControl, ShortInsn, WideOp,
};
use tag_memory::Reply;

/// Bits 0 to 31 of a register: what LITH keeps. Bits 32 to 63 become the immediate.
const LOW_WIDTH: u32 = 32;
/// How many digits a pc has.
const PC_WIDTH: u32 = 32;

impl Stream {
    /// Executes the instruction ("What each operation does", docs/MACHINE.md), where the memory answered `value` (it
    /// counts only where the instruction has a reference that answers) and the processor granted so many streams
    /// (only for RESERVE). QUIT, QUITP and CREATE do here what NOP does; the processor completes them.
    #[tactic(auto, unfolding(crate::specs::Effects::after_instruction))]
    #[inline(always)]
    pub fn execute(&mut self, insn: &Insn, value: u64, grant: u64)
        ensures { self.new ≡ after_instruction self.old insn.now value grant }
    {
        match insn {
            Insn::Wide { op, reg, imm, .. } => self.execute_wide(*op, *reg, *imm),
            Insn::Normal { m, a, c, .. } => self.execute_parts(m, a, c, value, grant),
        }
    }

    /// The same for an instruction that `fetch_short` found, in fewer steps.
    #[inline(always)]
    pub fn execute_short(&mut self, short: &ShortInsn)
        ensures { self.new ≡ after_instruction self.old (short_instruction short.now) 0 0 }
    {
        let pc = self.pc_after(&short.c);
        let made = self.compute(&short.a);
        self.ssw.pc = pc;
        self.registers.set(short.a.destination(), made);
    }

    /// The same for an instruction that `fetch_reference` found, where the memory answered `value`.
    #[inline(always)]
    fn execute_reference(&mut self, reference: &ReferenceInsn, value: u64)
        ensures { self.new ≡ after_instruction self.old (reference_instruction reference.now) value 0 }
    {
        self.ssw.pc = self.pc_after(&reference.c);
        self.registers.set(reference.m.destination(), value);
        self.retries = 0;
    }

    /// The pc after a short control operation.
    #[inline(always)]
    fn pc_after(&self, c: &ShortControl) -> u32
        ensures { result ≡ pc_after_control self.now c.now }
    {
        match c {
            ShortControl::Nop => self.ssw.pc.wrapping_add(1),
            ShortControl::Skip { cond, code, n } => {
                if self.holds(*cond, *code) {
                    skipped(self.ssw.pc, *n)
                } else {
                    self.ssw.pc.wrapping_add(1)
                }
            }
        }
    }

    /// The result of the arithmetic operation, whose code is pushed where the part asks for it.
    #[inline(always)]
    fn compute(&mut self, a: &APart) -> u64
        ensures value { result ≡ arithmetic_value self.old a.now }
        ensures codes { self.new ≡ record self.old {
          ssw = record self.old.ssw { codes = (ssw_before_control self.old a.now).codes };
        } }
    {
        let first = self.register(a.ra);
        let second = if a.imm {
            u64::from(a.rb)
        } else {
            self.register(a.rb)
        };
        let made = value_of(a.op, first, second);
        if a.test {
            let code = code_of(a.op, first, second, made);
            self.ssw.codes = self.ssw.codes.pushed(code);
        }
        made
    }

    fn execute_wide(&mut self, op: WideOp, reg: u8, imm: u32)
        ensures { self.new ≡ after_wide self.old op reg imm }
    {
        let imm_value = u64::from(imm);
        match op {
            WideOp::Literal => self.registers.set(reg, imm_value),
            WideOp::LiteralHigh => {
                let low = self.registers.value(reg) % (1 << LOW_WIDTH);
                self.registers.set(reg, imm_value * (1 << LOW_WIDTH) + low);
            }
            WideOp::TargetLiteral => self.targets.set(reg, StatusWord::at(imm)),
        }
        self.ssw.pc = self.ssw.pc.wrapping_add(1);
    }

    fn execute_parts(&mut self, m: &MPart, a: &APart, c: &CPart, value: u64, grant: u64)
        ensures { self.new ≡ after_parts self.old m.now a.now c.now value grant }
    {
        // what is written, from the values at entry
        let (made, left) = self.arithmetic(a);
        let control_value = self.control_value(c, grant);
        let ssw = self.control_ssw(c, left);
        self.write_target(c, left);
        self.registers.set(m.destination(), value);
        self.registers.set(a.destination(), made);
        self.registers.set(c.destination(), control_value);
        self.ssw = ssw;
        self.retries = retries_after(m.op, self.retries);
    }

    /// The result of the arithmetic operation, and the status word that the step would leave but for the control
    /// operation.
    fn arithmetic(&self, a: &APart) -> (u64, StatusWord)
        ensures { result ≡ (arithmetic_value self.now a.now, ssw_before_control self.now a.now) }
    {
        let second = if a.imm {
            u64::from(a.rb)
        } else {
            self.register(a.rb)
        };
        let (made, code) = alu(a.op, self.register(a.ra), second);
        let codes = if a.test {
            self.ssw.codes.pushed(code)
        } else {
            self.ssw.codes
        };
        let left = StatusWord {
            pc: self.ssw.pc.wrapping_add(1),
            codes,
            ..self.ssw
        };
        (made, left)
    }

    /// The status word after the control operation; `left` is the one that the step would leave.
    fn control_ssw(&self, c: &CPart, left: StatusWord) -> StatusWord
        ensures { result ≡ control_ssw self.now c.now c.now.op left }
    {
        match c.op {
            ControlOp::Jump if self.goes(c) => StatusWord {
                pc: self.targets.word(c.t).pc,
                ..left
            },
            ControlOp::Skip if self.goes(c) => StatusWord {
                pc: skipped(self.ssw.pc, c.n),
                ..left
            },
            ControlOp::Call => StatusWord {
                pc: self.targets.word(c.t).pc,
                ..left
            },
            ControlOp::Exchange => self.targets.word(c.t),
            ControlOp::Mask => StatusWord {
                mask: TrapMask::from_number(u64::from(c.n.unsigned_abs())),
                ..left
            },
            ControlOp::Jump
            | ControlOp::Skip
            | ControlOp::Nop
            | ControlOp::TargetSet
            | ControlOp::TargetGet
            | ControlOp::TrapGet
            | ControlOp::Reserve
            | ControlOp::Create
            | ControlOp::Quit
            | ControlOp::QuitKeep => left,
        }
    }

    /// Whether the condition of a jump or skip holds on the code that it asks.
    #[inline(always)]
    fn goes(&self, c: &CPart) -> bool
        ensures { result ≡ control_holds self.now c.now }
    {
        self.holds(c.cond, c.code)
    }

    /// Whether a condition holds on the code at this place, 0 for the newest to 3 for the oldest.
    #[inline(always)]
    fn holds(&self, cond: Condition, code: u8) -> bool
        ensures { result ≡ condition_holds cond (code_at self.now.ssw.codes code) }
    {
        match cond {
            Condition::Always => true,
            cond => holds(cond, self.ssw.codes.at(code)),
        }
    }

    /// Writes the target register that the control operation writes, if any.
    fn write_target(&mut self, c: &CPart, left: StatusWord)
        ensures { self.new ≡ record self.old { targets = control_targets self.old c.now c.now.op left } }
    {
        match c.op {
            ControlOp::Call => self.targets.set(c.u, StatusWord::at(left.pc)),
            ControlOp::Exchange => self.targets.set(c.t, left),
            ControlOp::TargetSet => {
                let word = StatusWord::from_bits(self.registers.value(c.ra));
                self.targets.set(c.t, word);
            }
            ControlOp::Nop
            | ControlOp::Jump
            | ControlOp::Skip
            | ControlOp::TargetGet
            | ControlOp::TrapGet
            | ControlOp::Reserve
            | ControlOp::Create
            | ControlOp::Quit
            | ControlOp::QuitKeep
            | ControlOp::Mask => {}
        }
    }

    /// What the control operation writes to its register, if it writes one.
    fn control_value(&self, c: &CPart, grant: u64) -> u64
        ensures { result ≡ control_value self.now c.now c.now.op grant }
    {
        match c.op {
            ControlOp::TargetGet => self.targets.word(c.t).bits(),
            ControlOp::TrapGet => self.xr,
            ControlOp::Reserve => grant,
            ControlOp::Nop
            | ControlOp::Jump
            | ControlOp::Skip
            | ControlOp::Call
            | ControlOp::Exchange
            | ControlOp::TargetSet
            | ControlOp::Create
            | ControlOp::Quit
            | ControlOp::QuitKeep
            | ControlOp::Mask => 0,
        }
    }

    /// Completes the step of an instruction with a reference, by the memory's reply: it is executed, blocked or
    /// trapped ("Retries", docs/MACHINE.md). `limit` is the image's retry limit.
    pub fn reply(&mut self, insn: &Insn, reply: Reply, limit: u32, grant: u64) -> Outcome
        ensures { (self.new, result) ≡ after_reply limit self.old insn.now grant reply }
    {
        match reply {
            Reply::Done(value) => {
                self.execute(insn, value, grant);
                Outcome::Done
            }
            Reply::Blocked(address) => self.block(limit, address),
            Reply::Trap(kind, address) => self.trap(trap_of(kind), address),
        }
    }

    /// The same for an instruction that `fetch_reference` found, in fewer steps.
    #[inline(always)]
    pub fn reply_reference(
        &mut self,
        reference: &ReferenceInsn,
        reply: Reply,
        limit: u32,
    ) -> Outcome
        ensures { (self.new, result) ≡ after_reply limit self.old (reference_instruction reference.now) 0 reply }
    {
        match reply {
            Reply::Done(value) => {
                self.execute_reference(reference, value);
                Outcome::Done
            }
            Reply::Blocked(address) => self.block(limit, address),
            Reply::Trap(trap, address) => self.trap(trap_of(trap), address),
        }
    }

    fn block(&mut self, limit: u32, address: u64) -> Outcome
        ensures { (self.new, result) ≡ after_blocked_reply limit self.old address }
    {
        if limit == 0 {
            return Outcome::Blocked;
        }
        if self.retries < limit {
            self.retries += 1;
            return Outcome::Blocked;
        }
        if self.ssw.mask.blocked {
            return Outcome::Blocked;
        }
        self.trap(TrapKind::Blocked, address)
    }

    /// Completes a step over this program, read in this profile, that needs no memory ("One step", docs/MACHINE.md),
    /// with so many streams granted to RESERVE. QUIT, QUITP and CREATE do here what NOP does; the processor completes
    /// them.
    pub fn finish_local(&mut self, profile: Profile, program: &[u64], grant: u64)
        requires local { plan_of profile program.now self.old ≡ Plan.Local }
        ensures { (limit : ℕ) → (self.new, Outcome.Done) ≡ stream_row profile program.now limit self.old grant None }
    {
        let Fetch::Instruction(insn) = self.fetch(profile, program) else {
            unreachable!();
        };
        self.execute(&insn, 0, grant);
    }

    /// Completes a step whose request the memory replied to, as `reply` does over the instruction at the pc.
    pub fn finish_reply(
        &mut self,
        profile: Profile,
        program: &[u64],
        reply: Reply,
        limit: u32,
        grant: u64,
    ) -> Outcome
        requires asks { (q : Request) × (plan_of profile program.now self.old ≡ Plan.Ask q) }
        ensures { (self.new, result) ≡ stream_row profile program.now limit self.old grant (Some reply) }
    {
        let Fetch::Instruction(insn) = self.fetch(profile, program) else {
            unreachable!();
        };
        self.reply(&insn, reply, limit, grant)
    }
}

/// A reference that is done has not been blocked.
fn retries_after(op: MemoryOp, retries: u32) -> u32
    ensures { result ≡ retries_after op retries }
{
    match op {
        MemoryOp::Nop => retries,
        MemoryOp::Load
        | MemoryOp::Store
        | MemoryOp::FetchAdd
        | MemoryOp::TagGet
        | MemoryOp::TagSet
        | MemoryOp::Purge => 0,
    }
}

/// The pc that lies so many words after the next one.
fn skipped(pc: u32, words: i8) -> u32
    ensures { result ≡ skip_pc pc words }
{
    pc.wrapping_add(1)
        .wrapping_add(i32::from(words).cast_unsigned())
}
