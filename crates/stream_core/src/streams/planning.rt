//! What the next step of a stream finds and needs. It reads the stream and changes nothing.

ghost use Rattle.std.specs.Prelude.{◌≡◌, Some, IfSome};
ghost use Rattle.insn_word.specs.declared.profiles.Profile.{Profile};
ghost use Rattle.insn_word.specs.ShortInsns.{short_instruction, reference_instruction};
ghost use Rattle.stream_core.specs.Effects.{displaced_pointer, request_with, request_of};
ghost use Rattle.stream_core.specs.ShortEffects.{asked_value};
ghost use Rattle.stream_core.specs.StreamRow.{fetch_word, fetch_of, plan_of, control_of, control_at};

use super::Stream;
use crate::conversions::{acc_of, operation_of};
use crate::steps::{Child, Control, Fetch, Plan, Status};
use crate::traps::TrapKind;
use insn_word::{
    ControlOp, Insn, MPart, MemoryOp, Profile, ReferenceInsn, ReferenceOp, ReferencePart,
    ShortInsn, decode_as, decode_reference, decode_short,
};
use tag_memory::{MemOp, Pointer, Request, RequestMask};

/// Bits 0 to 3 of a register: the tags that TAGSET writes.
const TAGS_WIDTH: u32 = 4;
/// Bits 0 to 47 of a pointer: the byte address.
const ADDRESS_WIDTH: u32 = 48;
/// How many bytes a word has.
const WORD_BYTES: i64 = 8;

impl Stream {
    /// What stands at the pc of this program, read in this profile: nothing where the stream does not run, else the
    /// instruction or the trap PROGRAM or ILLEGAL ("Traps", docs/MACHINE.md). One step needs one call: `request`,
    /// `control_of`, `execute` and `reply` go by its instruction.
    #[tactic(auto, unfolding(crate::specs::StreamRow::fetch_of))]
    pub fn fetch(&self, profile: Profile, program: &[u64]) -> Fetch
        ensures { result ≡ fetch_of profile program.now self.now }
    {
        if self.status != Status::Running {
            return Fetch::Rest;
        }
        match program.get(self.ssw.pc as usize) {
            None => Fetch::Trap(TrapKind::Program),
            Some(word) => match decode_as(profile, *word) {
                None => Fetch::Trap(TrapKind::Illegal),
                Some(insn) => Fetch::Instruction(insn),
            },
        }
    }

    /// The instruction at the pc of this program, where the stream runs and `decode_short` reads it; None where `fetch`
    /// has to say what stands there. It is the same in each profile.
    #[inline(always)]
    pub fn fetch_short(&self, program: &[u64]) -> Option<ShortInsn>
        ensures { (p : Profile) → IfSome result (λ short. fetch_of p program.now self.now
            ≡ Fetch.Instruction (short_instruction short)) }
    {
        decode_short(self.fetch_word(program)?)
    }

    /// The same of `decode_reference`.
    #[inline(always)]
    pub fn fetch_reference(&self, program: &[u64]) -> Option<ReferenceInsn>
        ensures { (p : Profile) → IfSome result (λ r. fetch_of p program.now self.now
            ≡ Fetch.Instruction (reference_instruction r)) }
    {
        decode_reference(self.fetch_word(program)?)
    }

    /// The word at the pc of this program, where the stream runs and there is one.
    #[tactic(auto, unfolding(crate::specs::StreamRow::fetch_of))]
    #[inline(always)]
    fn fetch_word(&self, program: &[u64]) -> Option<u64>
        ensures { (p : Profile) → IfSome result (λ word. fetch_of p program.now self.now ≡ fetch_word p (Some word)) }
    {
        if self.status == Status::Running {
            program.get(self.ssw.pc as usize).copied()
        } else {
            None
        }
    }

    /// What the instruction asks of the memory, with the values at entry; None where it has no reference ("Memory
    /// operations", docs/MACHINE.md).
    #[tactic(auto, unfolding(crate::specs::Effects::request_of))]
    pub fn request(&self, insn: &Insn) -> Option<Request>
        ensures { result ≡ request_of self.now insn.now }
    {
        let Insn::Normal { m, .. } = insn else {
            return None;
        };
        match m.op {
            MemoryOp::Nop => None,
            MemoryOp::Load => Some(self.request_with(m, MemOp::Load, 0)),
            MemoryOp::Store => Some(self.request_with(m, MemOp::Store, self.register(m.rd))),
            MemoryOp::FetchAdd => Some(self.request_with(m, MemOp::Fadd, self.register(m.rd))),
            MemoryOp::TagGet => Some(self.request_with(m, MemOp::TagGet, 0)),
            MemoryOp::TagSet => Some(self.request_with(
                m,
                MemOp::TagSet,
                self.register(m.rd) % (1 << TAGS_WIDTH),
            )),
            MemoryOp::Purge => Some(self.request_with(m, MemOp::Purge, self.register(m.rd))),
        }
    }

    /// The same for an instruction that `fetch_reference` found, in fewer steps: it asks in any case.
    #[inline(always)]
    pub fn request_reference(&self, reference: &ReferenceInsn) -> Request
        ensures { Some result ≡ request_of self.now (reference_instruction reference.now) }
    {
        let m = &reference.m;
        Request {
            op: operation_of(m.op),
            pointer: displaced_pointer(self.register(m.base), m.disp),
            acc: acc_of(m.acc),
            value: self.asked_value(m),
            masked: RequestMask {
                trap0: self.ssw.mask.trap0,
                trap1: self.ssw.mask.trap1,
            },
        }
    }

    /// The value that a reference hands the memory; 0 where it hands it none.
    #[inline(always)]
    fn asked_value(&self, m: &ReferencePart) -> u64
        ensures { result ≡ asked_value self.now m.now m.now.op }
    {
        match m.op {
            ReferenceOp::Load | ReferenceOp::TagGet => 0,
            ReferenceOp::Store | ReferenceOp::FetchAdd => self.register(m.rd),
            ReferenceOp::TagSet => self.register(m.rd) % (1 << TAGS_WIDTH),
        }
    }

    /// The request of this operation with this value, over the pointer that the part names.
    fn request_with(&self, m: &MPart, op: MemOp, value: u64) -> Request
        ensures { result ≡ request_with self.now m.now op value }
    {
        Request {
            op,
            pointer: displaced_pointer(self.register(m.base), m.disp),
            acc: acc_of(m.acc),
            value,
            masked: RequestMask {
                trap0: self.ssw.mask.trap0,
                trap1: self.ssw.mask.trap1,
            },
        }
    }

    /// What the instruction asks of the processor, with the values at entry ("Processors", docs/MACHINE.md).
    #[tactic(auto, unfolding(crate::specs::StreamRow::control_of))]
    pub fn control_of(&self, insn: &Insn) -> Control
        ensures { result ≡ control_of self.now insn.now }
    {
        let Insn::Normal { c, .. } = insn else {
            return Control::Plain;
        };
        match c.op {
            ControlOp::Reserve => Control::Reserve(self.register(c.ra)),
            ControlOp::Create => Control::Create(Child {
                pc: self.targets.word(c.t).pc,
                value: self.register(c.ra),
                t0: self.targets.word(0),
                mask: self.ssw.mask,
            }),
            ControlOp::Quit => Control::Quit,
            ControlOp::QuitKeep => Control::QuitKeep,
            ControlOp::Nop
            | ControlOp::Jump
            | ControlOp::Skip
            | ControlOp::Call
            | ControlOp::Exchange
            | ControlOp::TargetSet
            | ControlOp::TargetGet
            | ControlOp::TrapGet
            | ControlOp::Mask => Control::Plain,
        }
    }

    /// What the next step over this program, read in this profile, needs: nothing where the stream does not run, a
    /// trap PROGRAM or ILLEGAL, a reply of the memory, or nothing but the stream ("One step", docs/MACHINE.md).
    #[tactic(auto, unfolding(crate::specs::StreamRow::plan_of))]
    pub fn plan(&self, profile: Profile, program: &[u64]) -> Plan
        ensures { result ≡ plan_of profile program.now self.now }
    {
        match self.fetch(profile, program) {
            Fetch::Rest => Plan::Rest,
            Fetch::Trap(kind) => Plan::Trap(kind),
            Fetch::Instruction(insn) => match self.request(&insn) {
                None => Plan::Local,
                Some(request) => Plan::Ask(request),
            },
        }
    }

    /// What the instruction at the pc, read in this profile, asks of the processor; `Plain` where the stream does not
    /// run or no instruction stands there.
    #[tactic(auto, unfolding(crate::specs::StreamRow::control_at))]
    pub fn control(&self, profile: Profile, program: &[u64]) -> Control
        ensures { result ≡ control_at profile program.now self.now }
    {
        match self.fetch(profile, program) {
            Fetch::Instruction(insn) => self.control_of(&insn),
            Fetch::Rest | Fetch::Trap(_) => Control::Plain,
        }
    }
}

/// The effective pointer: so many words further, modulo 2^48, with the upper 16 bits as they are ("Memory operations",
/// docs/MACHINE.md).
#[inline(always)]
pub fn displaced_pointer(pointer: u64, words: i8) -> Pointer
    ensures { result ≡ displaced_pointer pointer words }
{
    let bytes = i64::from(words) * WORD_BYTES;
    let sum = pointer.wrapping_add(bytes.cast_unsigned());
    let upper = pointer / (1 << ADDRESS_WIDTH) * (1 << ADDRESS_WIDTH);
    Pointer::new(upper + sum % (1 << ADDRESS_WIDTH))
}
