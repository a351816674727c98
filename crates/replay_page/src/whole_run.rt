//! All that is said of a run.

use crate::waits::{RunWait, run_waits};
use lab_json::texts::{RunEnd, end_of};
use machine::Machine;
use processor::Step;
use run_findings::Action;
use std::alloc::{AllocError, Global};
use step_views::StepView;
use whole_runs::{run_actions, run_views};

/// A run: what its steps did, who waited in it, and how it ended.
#[derive(Drop)]
pub(crate) struct WholeRun {
    /// The views of its steps.
    pub views: Vec<StepView>,
    /// What the steps did, for findings.
    pub actions: Vec<Action>,
    /// The waits.
    pub waits: Vec<RunWait>,
    /// The end.
    pub end: RunEnd,
}

impl WholeRun {
    /// The run of a machine, which has taken no step, by a schedule.
    pub(crate) fn of<const S: usize>(
        alloc: Global,
        start: &Machine<'_, S>,
        schedule: &[Step],
    ) -> Result<WholeRun, AllocError> {
        let (views, end) = views_and_end(alloc, start, schedule)?;
        let waits = waits_from(alloc, start, &views)?;
        let actions = actions_from(alloc, start, schedule)?;
        Ok(WholeRun {
            views,
            actions,
            waits,
            end,
        })
    }
}

/// The waits of the run of these steps from the machine's world on.
fn waits_from<const S: usize>(
    alloc: Global,
    start: &Machine<'_, S>,
    views: &[StepView],
) -> Result<Vec<RunWait>, AllocError> {
    let mut machine = start.try_clone()?;
    run_waits(alloc, &mut machine, views)
}

/// What the steps of a schedule do from the machine's world on, for findings.
fn actions_from<const S: usize>(
    alloc: Global,
    start: &Machine<'_, S>,
    schedule: &[Step],
) -> Result<Vec<Action>, AllocError> {
    let mut machine = start.try_clone()?;
    run_actions(alloc, &mut machine, schedule)
}

/// What the steps of a machine's run did, and how it ended.
fn views_and_end<const S: usize>(
    alloc: Global,
    start: &Machine<'_, S>,
    schedule: &[Step],
) -> Result<(Vec<StepView>, RunEnd), AllocError> {
    let mut machine = start.try_clone()?;
    let views = run_views(alloc, &mut machine, schedule)?;
    let end = end_of(alloc, &machine, &views)?;
    Ok((views, end))
}
