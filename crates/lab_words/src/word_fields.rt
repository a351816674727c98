//! The fields of an instruction word.

use asm_line::names;
use insn_word::{APart, ArithmeticOp, CPart, ControlOp, Insn, MPart, MemoryOp};
use std::alloc::{AllocError, Global};

/// Adds the fields of an instruction, a line for each part.
pub(crate) fn push_fields(alloc: Global, out: &mut String, insn: &Insn) -> Result<(), AllocError> {
    match insn {
        Insn::Wide { look, op, reg, imm } => {
            let name = names::wide(*op);
            let line = format!(in alloc;
                "lookahead   {look}\nwide        {name}  register {reg}  immediate {imm}\n"
            )?;
            out.push_str(line.as_str())
        }
        Insn::Normal { look, m, a, c } => {
            let line = format!(in alloc; "lookahead   {look}\n")?;
            out.push_str(line.as_str())?;
            push_memory(alloc, out, m)?;
            push_arithmetic(alloc, out, a)?;
            push_control(alloc, out, c)
        }
    }
}

fn push_memory(alloc: Global, out: &mut String, m: &MPart) -> Result<(), AllocError> {
    let MPart {
        op,
        acc,
        rd,
        base,
        disp,
    } = *m;
    if op == MemoryOp::Nop {
        return out.push_str("memory      NOP\n");
    }
    let (name, suffix) = (names::memory(op), names::access(acc));
    let line = format!(in alloc;
        "memory      {name}{suffix}  rd {rd}  base {base}  displacement {disp}\n"
    )?;
    out.push_str(line.as_str())
}

fn push_arithmetic(alloc: Global, out: &mut String, a: &APart) -> Result<(), AllocError> {
    let APart {
        op,
        test,
        imm,
        rd,
        ra,
        rb,
    } = *a;
    if op == ArithmeticOp::Nop {
        return out.push_str("arithmetic  NOP\n");
    }
    let name = names::arithmetic(op);
    let suffix = if test { ".T" } else { "" };
    let last = if imm { "number" } else { "rb" };
    let line = format!(in alloc; "arithmetic  {name}{suffix}  rd {rd}  ra {ra}  {last} {rb}\n")?;
    out.push_str(line.as_str())
}

fn push_control(alloc: Global, out: &mut String, c: &CPart) -> Result<(), AllocError> {
    let CPart {
        op,
        cond,
        code,
        t,
        u,
        rd,
        ra,
        n,
    } = *c;
    if op == ControlOp::Nop {
        return out.push_str("control     NOP\n");
    }
    let (name, condition) = (names::control(op), names::condition(cond));
    let line = format!(in alloc;
        "control     {name}  condition {condition}  code {code}  t {t}  u {u}  rd {rd}  ra {ra}  n {n}\n"
    )?;
    out.push_str(line.as_str())
}
