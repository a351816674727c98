//! Which registers hold what was computed from a value that was read.

ghost use Rattle.std.specs.Prelude.{◌≡◌, ◌≤◌, ◌<◌, ◌+◌, length, slice_get, slice_range, slice_set};
ghost use Rattle.run_findings.specs.Marks.{no_marks, mark_at, with_mark, arithmetic_mark, control_mark, target_marks};
ghost use Rattle.run_findings.specs.Marks.{marks_after_parts, is_quit, marks_after_wide, marks_after};
ghost use Rattle.run_findings.specs.Marks.{marks_after_deed, marks_past, marks_before, marks_of_read};
ghost use Rattle.run_findings.specs.Marks.{stores_marked};

use crate::actions::{Action, Deed};
use insn_word::{APart, CPart, ControlOp, Insn, MPart, WideOp};
use processor::Step;

/// The marked registers of a stream.
#[derive(Clone, Copy)]
pub(crate) struct Marks {
    pub(crate) registers: [bool; 32],
    pub(crate) targets: [bool; 8],
}

impl Marks {
    /// No register is marked.
    pub(crate) const NONE: Marks = Marks {
        registers: [false; 32],
        targets: [false; 8],
    };

    /// The marks of a stream before step `end`, of what its step `read` read.
    pub(crate) fn before(actions: &[Action], stream: Step, read: usize, end: usize) -> Marks
        requires read_in { read < end }
        requires end_in { end ≤ length actions.now }
        ensures { result ≡ marks_before actions.now stream read end }
    {
        let mut marks = Marks::NONE.after_deed(&actions[read].deed, true);
        for action in &actions[read + 1..end] {
            marks = marks.past(stream, action);
        }
        marks
    }

    /// The marks of a stream after a step of some stream.
    pub(crate) fn past(self, stream: Step, action: &Action) -> Marks
        ensures { result ≡ marks_past stream self action.now }
    {
        if action.is_by(stream) {
            self.after_deed(&action.deed, false)
        } else {
            self
        }
    }

    /// The marks after what a step did to its stream, where the memory's answer is marked or not.
    pub(crate) fn after_deed(self, deed: &Deed, answer: bool) -> Marks
        ensures { result ≡ marks_after_deed self deed.now answer }
    {
        match deed {
            Deed::Nothing => self,
            Deed::Trap => Marks {
                targets: with_target_mark(self.targets, 0, false),
                ..self
            },
            Deed::Instruction(insn) => self.after(insn, answer),
        }
    }

    fn after(self, insn: &Insn, answer: bool) -> Marks
        ensures { result ≡ marks_after self insn.now answer }
    {
        match insn {
            Insn::Wide { op, reg, .. } => self.after_wide(*op, *reg),
            Insn::Normal { m, a, c, .. } => {
                if is_quit(c.op) {
                    Marks::NONE
                } else {
                    self.after_parts(m, a, c, answer)
                }
            }
        }
    }

    pub(crate) fn after_wide(self, op: WideOp, reg: u8) -> Marks
        ensures { result ≡ marks_after_wide self op reg }
    {
        match op {
            WideOp::Literal => Marks {
                registers: with_mark(self.registers, reg, false),
                ..self
            },
            WideOp::LiteralHigh => self,
            WideOp::TargetLiteral => Marks {
                targets: with_target_mark(self.targets, reg, false),
                ..self
            },
        }
    }

    fn after_parts(self, m: &MPart, a: &APart, c: &CPart, answer: bool) -> Marks
        ensures { result ≡ marks_after_parts self m.now a.now c.now answer }
    {
        let made = self.of_arithmetic(a);
        let got = self.of_control(c);
        let registers = with_mark(self.registers, m.destination(), answer);
        let registers = with_mark(registers, a.destination(), made);
        let registers = with_mark(registers, c.destination(), got);
        Marks {
            registers,
            targets: self.targets_after(c),
        }
    }

    pub(crate) fn of_arithmetic(&self, a: &APart) -> bool
        ensures { result ≡ arithmetic_mark self.now a.now }
    {
        mark_at(&self.registers, a.ra) || (!a.imm && mark_at(&self.registers, a.rb))
    }

    fn of_control(&self, c: &CPart) -> bool
        ensures { result ≡ control_mark self.now c.now c.now.op }
    {
        match c.op {
            ControlOp::TargetGet => mark_at(&self.targets, c.t),
            ControlOp::Nop
            | ControlOp::Jump
            | ControlOp::Skip
            | ControlOp::Call
            | ControlOp::Exchange
            | ControlOp::TargetSet
            | ControlOp::TrapGet
            | ControlOp::Reserve
            | ControlOp::Create
            | ControlOp::Quit
            | ControlOp::QuitKeep
            | ControlOp::Mask => false,
        }
    }

    fn targets_after(&self, c: &CPart) -> [bool; 8]
        ensures { result ≡ target_marks self.now c.now c.now.op }
    {
        match c.op {
            ControlOp::Call => with_target_mark(self.targets, c.u, false),
            ControlOp::Exchange => with_target_mark(self.targets, c.t, false),
            ControlOp::TargetSet => {
                with_target_mark(self.targets, c.t, mark_at(&self.registers, c.ra))
            }
            ControlOp::Nop
            | ControlOp::Jump
            | ControlOp::Skip
            | ControlOp::TargetGet
            | ControlOp::TrapGet
            | ControlOp::Reserve
            | ControlOp::Create
            | ControlOp::Quit
            | ControlOp::QuitKeep
            | ControlOp::Mask => self.targets,
        }
    }

    /// Whether an instruction with STORE stores what is marked.
    pub(crate) fn are_stored(&self, deed: &Deed) -> bool
        ensures { result ≡ stores_marked deed.now self.now }
    {
        match deed {
            Deed::Instruction(Insn::Normal { m, .. }) => mark_at(&self.registers, m.rd),
            Deed::Instruction(Insn::Wide { .. }) | Deed::Nothing | Deed::Trap => false,
        }
    }
}

/// Whether an operation ends its stream.
pub(crate) fn is_quit(op: ControlOp) -> bool
    ensures { result ≡ is_quit op }
{
    match op {
        ControlOp::Quit | ControlOp::QuitKeep => true,
        ControlOp::Nop
        | ControlOp::Jump
        | ControlOp::Skip
        | ControlOp::Call
        | ControlOp::Exchange
        | ControlOp::TargetSet
        | ControlOp::TargetGet
        | ControlOp::TrapGet
        | ControlOp::Reserve
        | ControlOp::Create
        | ControlOp::Mask => false,
    }
}

pub(crate) fn mark_at(marks: &[bool], number: u8) -> bool
    ensures { result ≡ mark_at marks.now number }
{
    marks.get(usize::from(number)).copied().unwrap_or(false)
}

/// The marks with another one for a register. Of r0, and from 32 on, none is kept.
pub(crate) fn with_mark(marks: [bool; 32], register: u8, mark: bool) -> [bool; 32]
    ensures { result ≡ with_mark marks register mark }
{
    let mut marks = marks;
    let place = usize::from(register);
    if place > 0 && place < 32 {
        marks[place] = mark;
    }
    marks
}

/// The marks with another one for a target register. From 8 on none is kept.
pub(crate) fn with_target_mark(marks: [bool; 8], target: u8, mark: bool) -> [bool; 8]
    ensures { result ≡ slice_set marks target mark }
{
    let mut marks = marks;
    let place = usize::from(target);
    if place < 8 {
        marks[place] = mark;
    }
    marks
}
