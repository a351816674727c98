//! Which registers a value is computed from, going back over the steps of its stream. They are marked, so the value is
//! computed from what a step read where one of them has that step's mark.

ghost use Rattle.std.specs.Prelude.{◌≡◌, ◌&&◌, ◌||◌, Bool, List, true, false, length, slice_set};
ghost use Rattle.run_findings.specs.Marks.{no_marks, mark_at, with_mark, arithmetic_mark, control_mark, marks_after_parts};
ghost use Rattle.run_findings.specs.Marks.{marks_after, marks_after_wide, marks_after_deed, stores_marked, target_marks};
ghost use Rattle.run_findings.specs.Needs.{is_any, are_any, any_both, are_shared, is_needed, is_control_needed};
ghost use Rattle.run_findings.specs.Needs.{is_arithmetic_needed, without_written, without_target, with_targets};
ghost use Rattle.run_findings.specs.Needs.{IsPart, IsSized};
ghost use Rattle.run_findings.specs.declared.actions.Deed.TheVariants.{Instruction};

use crate::actions::Deed;
use crate::marks::{Marks, is_quit, mark_at, with_mark, with_target_mark};
use insn_word::{APart, CPart, ControlOp, Insn, MPart, WideOp};

impl Marks {
    /// What an instruction with STORE needs for what it stores, of the registers that are marked among `any`.
    #[tactic(auto, using(crate::proofs::Needed::none_shared))]
    pub(crate) fn needed_to_store(deed: &Deed, any: &Marks) -> Marks
        ensures { (m : Marks) → IsPart m any.now → are_shared m result ≡ stores_marked deed.now m }
    {
        match deed {
            Deed::Instruction(insn) => Marks::needed_by_store(insn, any),
            Deed::Nothing | Deed::Trap => Marks::NONE,
        }
    }

    #[tactic(auto, using(crate::proofs::Needed::none_shared))]
    fn needed_by_store(insn: &Insn, any: &Marks) -> Marks
        ensures { (m : Marks) → IsPart m any.now → are_shared m result ≡ stores_marked (Instruction insn.now) m }
    {
        match insn {
            Insn::Normal { m, .. } => Marks::NONE.with_register(m.rd, any),
            Insn::Wide { .. } => Marks::NONE,
        }
    }

    /// Whether one is what an instruction got that read a word.
    pub(crate) fn are_read(&self, deed: &Deed) -> bool
        ensures { result ≡ are_shared (marks_after_deed no_marks deed.now true) self.now }
    {
        Marks::NONE.after_deed(deed, true).are_shared(self)
    }

    /// What is needed before a step of the stream which did this to it, where these are needed after it.
    pub(crate) fn needed_before(self, deed: &Deed, any: &Marks) -> Marks
        ensures { (m : Marks) → IsPart m any.now → are_shared (marks_after_deed m deed.now false) self ≡ are_shared m result }
    {
        match deed {
            Deed::Nothing => self,
            Deed::Trap => Marks {
                targets: with_target_mark(self.targets, 0, false),
                ..self
            },
            Deed::Instruction(insn) => self.needed_before_insn(insn, any),
        }
    }

    fn needed_before_insn(self, insn: &Insn, any: &Marks) -> Marks
        ensures { (m : Marks) → IsPart m any.now → are_shared (marks_after m insn.now false) self ≡ are_shared m result }
    {
        match insn {
            Insn::Wide { op, reg, .. } => self.needed_before_wide(*op, *reg),
            Insn::Normal { m, a, c, .. } => {
                if is_quit(c.op) {
                    Marks::NONE
                } else {
                    self.needed_before_parts(m, a, c, any)
                }
            }
        }
    }

    fn needed_before_wide(self, op: WideOp, reg: u8) -> Marks
        ensures { (m : Marks) → are_shared (marks_after_wide m op reg) self ≡ are_shared m result }
    {
        self.after_wide(op, reg)
    }

    fn needed_before_parts(self, m: &MPart, a: &APart, c: &CPart, any: &Marks) -> Marks
        ensures { (n : Marks) → IsPart n any.now
            → are_shared (marks_after_parts n m.now a.now c.now false) self ≡ are_shared n result }
    {
        let got = self.is_control_needed(c);
        let made = self.is_arithmetic_needed(a, c);
        self.without_written(m, a, c)
            .needed_before_targets(c, any)
            .needed_for_control(c, got, any)
            .needed_for_arithmetic(a, made, any)
    }

    /// Whether what a control operation writes into a register is needed.
    fn is_control_needed(&self, c: &CPart) -> bool
        ensures { result ≡ is_control_needed self.now c.now }
    {
        is_needed(&self.registers, c.destination())
    }

    /// Whether the result of an arithmetic operation is needed, over which the control operation may write.
    fn is_arithmetic_needed(&self, a: &APart, c: &CPart) -> bool
        ensures { result ≡ is_arithmetic_needed self.now a.now c.now }
    {
        let registers = with_mark(self.registers, c.destination(), false);
        is_needed(&registers, a.destination())
    }

    /// These without the registers that an instruction writes.
    fn without_written(self, m: &MPart, a: &APart, c: &CPart) -> Marks
        ensures { result ≡ without_written self m.now a.now c.now }
    {
        let registers = with_mark(self.registers, c.destination(), false);
        let registers = with_mark(registers, a.destination(), false);
        let registers = with_mark(registers, m.destination(), false);
        Marks { registers, ..self }
    }

    /// What is needed before a control operation writes the target registers.
    fn needed_before_targets(self, c: &CPart, any: &Marks) -> Marks
        ensures { (m : Marks) → IsPart m any.now → are_shared (with_targets m c.now) self ≡ are_shared m result }
    {
        match c.op {
            ControlOp::Call => self.without_target(c.u),
            ControlOp::Exchange => self.without_target(c.t),
            ControlOp::TargetSet => {
                let rest = self.without_target(c.t);
                if mark_at(&self.targets, c.t) {
                    rest.with_register(c.ra, any)
                } else {
                    rest
                }
            }
            ControlOp::Nop
            | ControlOp::Jump
            | ControlOp::Skip
            | ControlOp::TargetGet
            | ControlOp::TrapGet
            | ControlOp::Reserve
            | ControlOp::Create
            | ControlOp::Quit
            | ControlOp::QuitKeep
            | ControlOp::Mask => self,
        }
    }

    /// These, and what a control operation needs for what it writes into its register, where that is needed.
    fn needed_for_control(self, c: &CPart, got: bool, any: &Marks) -> Marks
        ensures { (m : Marks) → IsPart m any.now
            → are_shared m result ≡ ((control_mark m c.now c.now.op && got) || are_shared m self) }
    {
        match c.op {
            ControlOp::TargetGet => { if got { self.with_target(c.t) } else { self } }
            ControlOp::Nop
            | ControlOp::Jump
            | ControlOp::Skip
            | ControlOp::Call
            | ControlOp::Exchange
            | ControlOp::TargetSet
            | ControlOp::TrapGet
            | ControlOp::Reserve
            | ControlOp::Create
            | ControlOp::Quit
            | ControlOp::QuitKeep
            | ControlOp::Mask => self,
        }
    }

    /// These, and what an arithmetic operation needs for its result, where that is needed.
    fn needed_for_arithmetic(self, a: &APart, made: bool, any: &Marks) -> Marks
        ensures { (m : Marks) → IsPart m any.now
            → are_shared m result ≡ ((arithmetic_mark m a.now && made) || are_shared m self) }
    {
        if !made {
            return self;
        }
        let needed = self.with_register(a.ra, any);
        if a.imm {
            needed
        } else {
            needed.with_register(a.rb, any)
        }
    }

    /// These and a register, unless it is not marked among `any`.
    fn with_register(self, register: u8, any: &Marks) -> Marks
        ensures { (m : Marks) → IsPart m any.now
            → are_shared m result ≡ (mark_at m.registers register || are_shared m self) }
    {
        if mark_at(&any.registers, register) {
            Marks {
                registers: with_need(self.registers, register),
                ..self
            }
        } else {
            self
        }
    }

    /// These and a target register.
    fn with_target(self, target: u8) -> Marks
        ensures { (m : Marks) → IsSized m → are_shared m result ≡ (mark_at m.targets target || are_shared m self) }
    {
        Marks {
            targets: with_target_mark(self.targets, target, true),
            ..self
        }
    }

    /// These without a target register.
    fn without_target(self, target: u8) -> Marks
        ensures { result ≡ without_target self target }
    {
        Marks {
            targets: with_target_mark(self.targets, target, false),
            ..self
        }
    }

    /// Whether a register is marked among these and others.
    pub(crate) fn are_shared(&self, others: &Marks) -> bool
        ensures { result ≡ are_shared self.now others.now }
    {
        any_both(&self.registers, &others.registers) || any_both(&self.targets, &others.targets)
    }

    /// Whether a register is marked.
    pub(crate) fn are_any(&self) -> bool
        ensures { result ≡ are_any self.now }
    {
        is_any(&self.registers) || is_any(&self.targets)
    }
}

/// Whether what an operation writes into this register is needed: into r0 it writes nothing.
fn is_needed(marks: &[bool], register: u8) -> bool
    ensures { result ≡ is_needed marks.now register }
{
    register != 0 && mark_at(marks, register)
}

/// The marks with that of a register.
fn with_need(marks: [bool; 32], register: u8) -> [bool; 32]
    ensures { result ≡ slice_set marks register true }
{
    let mut marks = marks;
    let place = usize::from(register);
    if place < 32 {
        marks[place] = true;
    }
    marks
}

/// Whether one is marked among both lists.
fn any_both(one: &[bool], other: &[bool]) -> bool
    requires { length one.now ≡ length other.now }
    ensures { result ≡ any_both one.now other.now }
{
    for place in 0..one.len() {
        if one[place] && other[place] {
            return true;
        }
    }
    false
}

/// Whether one is marked.
fn is_any(marks: &[bool]) -> bool
    ensures { result ≡ is_any marks.now }
{
    for mark in marks {
        if *mark {
            return true;
        }
    }
    false
}
