//! Which streams the steps of a run start, by which of them are in use.

ghost use Rattle.std.specs.Prelude.{◌≡◌, ℕ, Bool, ◌<◌, ◌&&◌, ◌==◌, if◌then◌else◌, length, IfOk, IfSome, slice_get, slice_index_or, false};
ghost use Rattle.run_findings.specs.Places.{passes};
ghost use Rattle.run_findings.specs.Marks.{is_quit};
ghost use Rattle.value_origins.specs.Streams.{creates, quits, is_create, used_past, begins};
ghost use Rattle.value_origins.specs.Tables.{used_in, is_that, IsLowest, IsStartBy, AreUsed, AreStarts};
ghost use Rattle.std.specs.Prelude.{Some};

use insn_word::{ControlOp, Insn};
use processor::Step;
use run_findings::{Action, Deed};
use std::alloc::{AllocError, Global};

/// How many streams bytes can name: 256 of each of 256 processors.
const NAMED: usize = 65_536;

/// Of each step of a run from its start, the stream of its processor that it started, if it did: the lowest one that was
/// idle ("Processors", docs/MACHINE.md).
#[derive(Drop)]
pub struct Starts {
    streams: Vec<Option<usize>>,
}

impl Starts {
    /// Those of a run with these steps, from its start.
    pub fn of(alloc: Global, actions: &[Action]) -> Result<Starts, AllocError>
        ensures { IfOk result (λ starts. AreStarts actions.now starts) }
    {
        let mut moved = unmarked(alloc, NAMED)?;
        let mut streams = Vec::new(alloc);
        for step in 0..actions.len() {
            let started = started_by(&moved, &actions[step]);
            streams.push(started)?;
            note(&mut moved, &actions[step], started);
        }
        Ok(Starts { streams })
    }

    /// Whether a step begins a stream.
    pub(crate) fn begins(&self, actions: &[Action], step: usize, stream: Step) -> bool
        requires step_in { step < length actions.now }
        requires starts { AreStarts actions.now self.now }
        ensures { result ≡ passes (begins actions.now step stream) (slice_get actions.now step) }
    {
        actions[step].stream.p == stream.p && is_that(self.streams[step], usize::from(stream.s))
    }
}

/// So many marks that are not set.
fn unmarked(alloc: Global, count: usize) -> Result<Vec<bool>, AllocError>
    ensures count { IfOk result (λ v. length v.items ≡ count) }
    ensures is { IfOk result (λ v. (k : ℕ) → slice_index_or v.items k false ≡ false) }
{
    let marks = vec![in alloc; false; count]?;
    Ok(marks)
}

/// Whether a stream is this one.
fn is_that(started: Option<usize>, stream: usize) -> bool
    ensures { result ≡ is_that started stream }
{
    match started {
        Some(number) => number == stream,
        None => false,
    }
}

/// The stream that a step starts.
fn started_by(moved: &[bool], action: &Action) -> Option<usize>
    ensures is { IsStartBy moved.now action.now result }
    ensures range { IfSome result (λ s. s < 256) }
    ensures named { action.now.stream.p < 256 }
{
    let p = processor_of(action);
    if creates(&action.deed) {
        lowest_idle(moved, p)
    } else {
        None
    }
}

/// The processor of a step.
fn processor_of(action: &Action) -> u8
    ensures is { result ≡ action.now.stream.p }
    ensures range { result < 256 }
{
    action.stream.p
}

/// The lowest idle stream of a processor.
fn lowest_idle(moved: &[bool], p: u8) -> Option<usize>
    ensures is { IsLowest (used_in moved.now p) result }
    ensures range { IfSome result (λ s. s < 256) }
{
    for s in 0..256 {
        if !is_in_use(moved, p, s) {
            return Some(s);
        }
    }
    None
}

/// Whether a stream is in use.
fn is_in_use(moved: &[bool], p: u8, s: usize) -> bool
    requires { s < 256 }
    ensures { result ≡ used_in moved.now p s }
{
    let number = usize::from(p) * 256 + s;
    let is_moved = moved.get(number).copied().unwrap_or(false);
    if s == 0 { !is_moved } else { is_moved }
}

/// Notes which streams are in use after a step that started this stream.
fn note(moved: &mut Vec<bool>, action: &Action, started: Option<usize>)
    requires count { length moved.old.items ≡ 65536 }
    requires started { IsStartBy moved.old.items action.now started }
    requires range { IfSome started (λ s. s < 256) }
    ensures count { length moved.new.items ≡ 65536 }
    ensures is { (p s : ℕ) → p < 256 → s < 256
        → used_in moved.new.items p s ≡ used_past p (used_in moved.old.items p) (Some action.now) s }
{
    let p = action.stream.p;
    match started {
        Some(s) => set_use(moved, p, s, true),
        None => {
            if quits(&action.deed) {
                set_use(moved, p, usize::from(action.stream.s), false);
            }
        }
    }
}

/// Notes whether a stream is in use.
fn set_use(moved: &mut Vec<bool>, p: u8, s: usize, is_used: bool)
    requires count { length moved.old.items ≡ 65536 }
    requires s_in { s < 256 }
    ensures count { length moved.new.items ≡ 65536 }
    ensures is { (q r : ℕ) → q < 256 → r < 256
        → used_in moved.new.items q r ≡ (if q == p && r == s then is_used else used_in moved.old.items q r) }
{
    let number = usize::from(p) * 256 + s;
    moved[number] = if s == 0 { !is_used } else { is_used };
}

/// Whether a step executed CREATE.
fn creates(deed: &Deed) -> bool
    ensures { result ≡ creates deed.now }
{
    match deed {
        Deed::Instruction(Insn::Normal { c, .. }) => is_create(c.op),
        Deed::Instruction(Insn::Wide { .. }) | Deed::Nothing | Deed::Trap => false,
    }
}

/// Whether it executed QUIT or QUITP.
fn quits(deed: &Deed) -> bool
    ensures { result ≡ quits deed.now }
{
    match deed {
        Deed::Instruction(Insn::Normal { c, .. }) => is_quit(c.op),
        Deed::Instruction(Insn::Wide { .. }) | Deed::Nothing | Deed::Trap => false,
    }
}

fn is_create(op: ControlOp) -> bool
    ensures { result ≡ is_create op }
{
    match op {
        ControlOp::Create => true,
        ControlOp::Nop
        | ControlOp::Jump
        | ControlOp::Skip
        | ControlOp::Call
        | ControlOp::Exchange
        | ControlOp::TargetSet
        | ControlOp::TargetGet
        | ControlOp::TrapGet
        | ControlOp::Reserve
        | ControlOp::Quit
        | ControlOp::QuitKeep
        | ControlOp::Mask => false,
    }
}

/// Whether an operation ends its stream.
pub(crate) fn is_quit(op: ControlOp) -> bool
    ensures { result ≡ is_quit op }
{
    match op {
        ControlOp::Quit | ControlOp::QuitKeep => true,
        ControlOp::Nop
        | ControlOp::Jump
        | ControlOp::Skip
        | ControlOp::Call
        | ControlOp::Exchange
        | ControlOp::TargetSet
        | ControlOp::TargetGet
        | ControlOp::TrapGet
        | ControlOp::Reserve
        | ControlOp::Create
        | ControlOp::Mask => false,
    }
}
