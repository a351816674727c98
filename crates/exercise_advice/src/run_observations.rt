//! What a run shows: its steps, its findings, and its end.

use crate::observations::{Observation, ObservationKind};
use crate::observing::ShownMistake;
use expectations::FullEmpty;
use image_machines::loaded;
use insn_word::{Insn, decode_as};
use judgements::states::EndState;
use machine::Machine;
use processor::Step;
use run_findings::{Action, Deed, Findings};
use std::alloc::{AllocError, Global};
use waiting::{Wanted, is_stuck, running_streams, wait_of};
use whole_runs::run_actions;

/// The most steps of a run in which torn reads are looked for: as many as in the texts of runs.
const MOST_STEPS_OF_TORN: usize = 2_000;

/// Adds what the run shows by which a program is not right, and its end, on machines with room for `S` streams a processor.
pub(crate) fn push_run<const S: usize>(
    alloc: Global,
    seen: &mut Vec<Observation>,
    shown: ShownMistake<'_>,
    end: &EndState,
) -> Result<(), AllocError> {
    let mut machine = loaded::<S>(alloc, shown.image)?;
    let actions = run_actions(alloc, &mut machine, shown.steps)?;
    push_steps(seen, &actions)?;
    push_findings(alloc, seen, &actions)?;
    push_stopped(seen, &machine, end)?;
    push_waiting(seen, &machine, end)?;
    push_running(alloc, seen, &machine)?;
    push_words(seen, &machine)
}

/// Adds what each step did, but for those that did nothing.
fn push_steps(seen: &mut Vec<Observation>, actions: &[Action]) -> Result<(), AllocError> {
    for action in actions {
        match action.deed {
            Deed::Nothing => {}
            Deed::Trap => {
                seen.push(Observation::by(ObservationKind::Trapped, action.stream))?;
            }
            Deed::Instruction(insn) => {
                let mut one = Observation::by(ObservationKind::Did, action.stream);
                one.insn = Some(insn);
                if let Some(access) = action.access {
                    one.address = Some(access.address);
                }
                seen.push(one)?;
            }
        }
    }
    Ok(())
}

/// Adds the words of the findings of a run.
fn push_findings(
    alloc: Global,
    seen: &mut Vec<Observation>,
    actions: &[Action],
) -> Result<(), AllocError> {
    let found = Findings::of(alloc, actions, MOST_STEPS_OF_TORN)?;
    for lost in found.lost.iter() {
        seen.push(Observation::at(ObservationKind::Lost, lost.word))?;
    }
    for unread in found.unread.iter() {
        seen.push(Observation::at(ObservationKind::Unread, unread.word))?;
    }
    for torn in found.torn.iter() {
        seen.push(Observation::at(ObservationKind::Torn, torn.stale))?;
        seen.push(Observation::at(ObservationKind::Torn, torn.fresh))?;
    }
    Ok(())
}

/// Adds who was stopped by which trap, at which instruction.
fn push_stopped<const S: usize>(
    seen: &mut Vec<Observation>,
    machine: &Machine<'_, S>,
    end: &EndState,
) -> Result<(), AllocError> {
    for stop in end.stopped.iter() {
        let mut one = Observation::by(ObservationKind::Stopped, stop.stream);
        one.trap = Some(stop.trap);
        one.insn = insn_at(machine, stop.stream);
        seen.push(one)?;
    }
    Ok(())
}

/// Adds who waits for which word and which state, at which instruction.
fn push_waiting<const S: usize>(
    seen: &mut Vec<Observation>,
    machine: &Machine<'_, S>,
    end: &EndState,
) -> Result<(), AllocError> {
    for wait in end.waiting.iter() {
        let mut one = Observation::by(ObservationKind::Waits, wait.stream);
        one.address = Some(wait.address);
        one.state = wanted_by(machine, wait.stream);
        one.insn = insn_at(machine, wait.stream);
        seen.push(one)?;
    }
    Ok(())
}

/// The state that a stream waits for.
fn wanted_by<const S: usize>(machine: &Machine<'_, S>, stream: Step) -> Option<FullEmpty> {
    match wait_of(machine, stream.p, stream.s)?.wanted {
        Wanted::Full => Some(FullEmpty::Full),
        Wanted::Empty => Some(FullEmpty::Empty),
    }
}

/// Adds who runs at the end and is not stuck.
fn push_running<const S: usize>(
    alloc: Global,
    seen: &mut Vec<Observation>,
    machine: &Machine<'_, S>,
) -> Result<(), AllocError> {
    for stream in &running_streams(alloc, machine)? {
        if !is_stuck(machine, stream.p, stream.s) {
            let mut one = Observation::by(ObservationKind::Runs, *stream);
            one.insn = insn_at(machine, *stream);
            seen.push(one)?;
        }
    }
    Ok(())
}

/// The instruction at which a stream stands.
fn insn_at<const S: usize>(machine: &Machine<'_, S>, stream: Step) -> Option<Insn> {
    let image = machine.image();
    let pc = machine.stream(stream.p, stream.s)?.ssw().pc;
    let word = image.program().get(pc as usize)?;
    decode_as(image.profile(), *word)
}

/// Adds of each word whether it is full or empty at the end, and whether its value is another one than at the start.
fn push_words<const S: usize>(
    seen: &mut Vec<Observation>,
    machine: &Machine<'_, S>,
) -> Result<(), AllocError> {
    for (index, before) in machine.image().cells().iter().enumerate() {
        let address = (index as u64).saturating_mul(8);
        let Some(word) = machine.word(address) else {
            return Ok(());
        };
        let mut one = Observation::at(ObservationKind::Left, address);
        one.state = Some(if word.is_full() {
            FullEmpty::Full
        } else {
            FullEmpty::Empty
        });
        seen.push(one)?;
        if word.value() != before.value() {
            seen.push(Observation::at(ObservationKind::Changed, address))?;
        }
    }
    Ok(())
}
