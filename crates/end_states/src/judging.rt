//! The end of a run, judged.

ghost use Rattle.std.specs.Prelude.{◌≡◌, ◌↔◌, not, IfOk, IsTrue, IsFalse};
ghost use Rattle.std.specs.List.{position};
ghost use Rattle.expectations.specs.Meeting.{is_met};
ghost use Rattle.schedule_verdicts.specs.RightEnds.{AreTrapsExpected, IsRightEnd};
ghost use Rattle.schedule_verdicts.specs.ScheduleSpace.Reaching.{IsEnd};
ghost use Rattle.end_states.specs.EndStates.{IsEndState};
ghost use Rattle.end_states.specs.Judgements.{is_expected, IsJudgedKind};

use crate::judgements::EndJudgement;
use crate::states::{EndState, end_state_of};
use end_kinds::{EndKind, end_kind_of};
use expectations::{Expectation, first_missed};
use machine::Machine;
use schedule_verdicts::{are_traps_expected, are_waits_expected};
use std::alloc::{AllocError, Global};

/// The end of a run: what it shows, and how it is judged.
#[derive(Drop)]
pub struct JudgedEnd {
    /// How it is judged.
    pub judgement: EndJudgement,
    /// What it shows.
    pub state: EndState,
}

/// The end of a run that has led to the world of a machine, and on whose way no claim is broken.
pub fn judged_end<const S: usize>(
    alloc: Global,
    machine: &Machine<'_, S>,
    expected: &[Expectation],
) -> Result<JudgedEnd, AllocError>
    ensures kind { IfOk result (λ e. IsJudgedKind machine.now.image expected.now machine.now.world e.judgement.kind) }
    ensures only { IfOk result (λ e. (kind : EndKind)
        → IsJudgedKind machine.now.image expected.now machine.now.world kind → kind ≡ e.judgement.kind) }
    ensures missed { IfOk result (λ e. e.judgement.missed
        ≡ position (λ x. not (is_met machine.now.world x)) expected.now) }
    ensures broken { IfOk result (λ e. e.judgement.broken ≡ None) }
    ensures trapped { IfOk result (λ e. IsFalse e.judgement.is_trapped
        ↔ AreTrapsExpected expected.now machine.now.world) }
    ensures right { IfOk result (λ e. IsEnd machine.now.image machine.now.world
        → IsTrue (is_expected e.judgement) ↔ IsRightEnd expected.now machine.now.world) }
    ensures state { IfOk result (λ e. IsEndState machine.now e.state) }
{
    Ok(JudgedEnd {
        judgement: EndJudgement {
            kind: judged_kind(machine, expected),
            missed: first_missed(machine, expected),
            broken: None,
            is_trapped: !are_traps_expected(machine, expected),
        },
        state: end_state_of(alloc, machine)?,
    })
}

/// The kind of the end that the world of a machine is, beside what is expected, if no step follows.
fn judged_kind<const S: usize>(machine: &Machine<'_, S>, expected: &[Expectation]) -> EndKind
    ensures is { IsJudgedKind machine.now.image expected.now machine.now.world result }
    ensures only { (kind : EndKind) → IsJudgedKind machine.now.image expected.now machine.now.world kind → kind ≡ result }
{
    match end_kind_of(machine) {
        EndKind::Deadlock if are_waits_expected(machine, expected) => EndKind::Waiting,
        kind => kind,
    }
}
