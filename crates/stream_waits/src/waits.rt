//! Who waits for what.

ghost use Rattle.std.specs.Prelude.{MatchOption, IfOk};
ghost use Rattle.waiting.specs.Waits.{IsAskedInVain};
ghost use Rattle.stream_waits.specs.StreamWaits.{IsStreamWait, AreWaitsOf, AreStreamWaits};

use crate::places::pc_of;
use crate::tries::first_try;
use crate::turns::{LastTurn, last_turn};
use machine::Machine;
use processor::Step;
use std::alloc::{AllocError, Global};
use step_views::StepView;
use waiting::{Wait, is_stuck, running_streams, wait_of};

/// A stream that waits.
#[derive(Clone, Copy, Debug)]
pub struct StreamWait {
    /// The stream.
    pub stream: Step,
    /// Its pc.
    pub pc: u32,
    /// What it waits for.
    pub wait: Wait,
    /// The number, from 1, of the first try of the row of tries in vain with which its steps end; 0 where it has not
    /// tried yet.
    pub since: usize,
    /// Which step left the word as it is; None where nobody filled or emptied it.
    pub turn: Option<LastTurn>,
    /// Whether no step of its own changes anything.
    pub is_stuck: bool,
}

/// The streams that wait in the world that these steps came to, in the order of processor and stream: all that run and
/// whose next step would be blocked.
pub fn waits_of<const S: usize>(
    alloc: Global,
    machine: &Machine<'_, S>,
    views: &[StepView],
) -> Result<Vec<StreamWait>, AllocError>
    ensures { IfOk result (λ v. AreStreamWaits machine.now views.now v.items) }
{
    let running = running_streams(alloc, machine)?;
    waits_among(alloc, machine, views, &running)
}

/// Those of these streams that wait, in their order.
fn waits_among<const S: usize>(
    alloc: Global,
    machine: &Machine<'_, S>,
    views: &[StepView],
    streams: &[Step],
) -> Result<Vec<StreamWait>, AllocError>
    ensures { IfOk result (λ v. AreWaitsOf machine.now views.now streams.now v.items) }
{
    let mut waits = Vec::new(alloc);
    for stream in streams {
        if let Some(wait) = wait_at(machine, views, *stream) {
            waits.push(wait)?;
        }
    }
    Ok(waits)
}

/// What a stream waits for; None where it does not wait.
fn wait_at<const S: usize>(
    machine: &Machine<'_, S>,
    views: &[StepView],
    stream: Step,
) -> Option<StreamWait>
    ensures { MatchOption result (¬ (IsAskedInVain machine.now stream))
        (λ w. IsAskedInVain machine.now stream × IsStreamWait machine.now views.now stream w) }
{
    let wait = wait_of(machine, stream.p, stream.s)?;
    Some(StreamWait {
        stream,
        pc: pc_of(machine, stream),
        wait,
        since: first_try(views, stream),
        turn: last_turn(views, wait.address),
        is_stuck: is_stuck(machine, stream.p, stream.s),
    })
}
