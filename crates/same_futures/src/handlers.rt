//! Whether a trap of a running stream may have a handler, by the image alone.

ghost use Rattle.std.specs.Prelude.{◌≡◌, IsTrue, List};
ghost use Rattle.std.specs.List.{list_any};
ghost use Rattle.processor.specs.World.{run};
ghost use Rattle.processor.specs.declared.steps.Step.{Step};
ghost use Rattle.same_futures.specs.Links.{TellsHandlers};
ghost use Rattle.same_futures.specs.Handlers.{wide_sets_handler, control_sets_handler, sets_handler};
ghost use Rattle.same_futures.specs.Handlers.{word_sets_handler, may_have_handlers};

use image_file::Image;
use insn_word::{CPart, ControlOp, Insn, Profile, WideOp, decode_as};

/// The trap entry that names no handler.
const NO_HANDLER: u32 = u32::MAX;

/// Whether a trap of a running stream may have a handler: streams begin with one, or some word of the program writes t0,
/// by TLIT, TSET, CALL or XCHG ("Traps", docs/MACHINE.md). Where it is false, each trap of each schedule stops its
/// stream.
#[tactic(auto, using(crate::proofs::NoHandlers::told_by), unfolding(crate::specs::Handlers::may_have_handlers))]
pub fn may_have_handlers(image: &Image) -> bool
    ensures is { result ≡ may_have_handlers image.now }
    ensures told { (ts : List Step) → TellsHandlers (IsTrue result) (run image.now ts) }
{
    image.trap_entry() != NO_HANDLER || any_sets_handler(image.profile(), image.program())
}

/// Whether some word of a program writes t0.
fn any_sets_handler(profile: Profile, program: &[u64]) -> bool
    ensures { result ≡ list_any (word_sets_handler profile) program.now }
{
    program.iter().any(
        |word: &u64| -> bool
            ensures { result ≡ word_sets_handler profile word.now }
        { word_sets_handler(profile, *word) },
    )
}

/// Whether a word spells an instruction that writes t0.
fn word_sets_handler(profile: Profile, word: u64) -> bool
    ensures { result ≡ word_sets_handler profile word }
{
    match decode_as(profile, word) {
        None => false,
        Some(insn) => sets_handler(&insn),
    }
}

/// Whether an instruction writes t0.
fn sets_handler(insn: &Insn) -> bool
    ensures { result ≡ sets_handler insn.now }
{
    match insn {
        Insn::Wide { op, reg, .. } => wide_sets_handler(*op, *reg),
        Insn::Normal { c, .. } => control_sets_handler(c),
    }
}

/// Whether a wide operation writes t0.
fn wide_sets_handler(op: WideOp, reg: u8) -> bool
    ensures { result ≡ wide_sets_handler op reg }
{
    match op {
        WideOp::Literal | WideOp::LiteralHigh => false,
        WideOp::TargetLiteral => reg == 0,
    }
}

/// Whether a control operation writes t0.
fn control_sets_handler(c: &CPart) -> bool
    ensures { result ≡ control_sets_handler c.now c.now.op }
{
    match c.op {
        ControlOp::Call => c.u == 0,
        ControlOp::Exchange | ControlOp::TargetSet => c.t == 0,
        ControlOp::Nop
        | ControlOp::Jump
        | ControlOp::Skip
        | ControlOp::TargetGet
        | ControlOp::TrapGet
        | ControlOp::Reserve
        | ControlOp::Create
        | ControlOp::Quit
        | ControlOp::QuitKeep
        | ControlOp::Mask => false,
    }
}
