//! Moves in slices, so that a pause is seen between two of them.

use crate::adapter::Adapter;
use crate::refusals::Refusal;
use crate::stop_conditions::{Match, StopConditions, first_found, last_found};
use adapter_messages::Events;
use debug_commands::Why;
use processor::Step;

/// How many steps a slice takes at first.
const SLICE: u64 = 10_000;

/// A move that is under way.
#[derive(Clone, Copy)]
pub(crate) struct OngoingMove {
    /// Whether it goes back.
    is_back: bool,
    /// The position at which it ends at last.
    goal: u64,
    /// The stream that is reported there; None for that of the next step.
    stream: Option<Step>,
    /// What is looked for beside the points.
    conditions: StopConditions,
    /// On the way back: no exception is looked for from this position on.
    high: u64,
    /// On the way back: how many steps a slice takes at most.
    budget: u64,
}

/// Why a move ends.
#[derive(Clone, Copy, PartialEq, Eq)]
pub(crate) enum StopReason {
    /// A point.
    Point,
    /// A step that trapped or was blocked.
    Exception,
    /// It has come where it was to go.
    Goal,
}

impl OngoingMove {
    /// A move forward to a position.
    pub(crate) fn forward(
        goal: u64,
        stream: Option<Step>,
        conditions: StopConditions,
    ) -> OngoingMove {
        OngoingMove {
            is_back: false,
            goal,
            stream,
            conditions,
            high: 0,
            budget: SLICE,
        }
    }

    /// A move back from a position to another.
    pub(crate) fn backward(
        from: u64,
        goal: u64,
        stream: Option<Step>,
        conditions: StopConditions,
    ) -> OngoingMove {
        OngoingMove {
            is_back: true,
            goal,
            stream,
            conditions,
            high: from,
            budget: SLICE,
        }
    }
}

impl<'a, 'i, 't> Adapter<'a, 'i, 't> {
    /// Goes on with what is under way for a slice, and reports where it stops.
    pub(crate) fn search_on(&mut self, events: &mut Events) -> Result<(), Refusal> {
        let Some(search) = self.search else {
            return Ok(());
        };
        let stop = if search.is_back {
            self.slice_back(search)?
        } else {
            self.slice_forward(search)?
        };
        match stop {
            Some(stop) => {
                self.search = None;
                self.report_stop(stop, search.stream, events)
            }
            None => Ok(()),
        }
    }

    /// A slice forward; why it ends there, or None where it goes on.
    fn slice_forward(&mut self, search: OngoingMove) -> Result<Option<StopReason>, Refusal> {
        let position = self.named.session.position();
        let slice = search.goal.saturating_sub(position).min(SLICE);
        let found = self.found_ahead(slice, &search.conditions)?;
        let count = match found {
            Some((steps, _)) => steps as u64,
            None => slice,
        };
        let why = self.named.session.go_on_within(count)?;
        let here = self.named.session.position();
        if why == Some(Why::Stop) {
            return Ok(Some(StopReason::Point));
        }
        match found {
            Some((_, Match::Exception)) => Ok(Some(StopReason::Exception)),
            Some((_, Match::Goal)) => Ok(Some(StopReason::Goal)),
            None if here >= search.goal || why == Some(Why::End) => Ok(Some(StopReason::Goal)),
            None => Ok(None),
        }
    }

    /// What is found within so many steps ahead.
    fn found_ahead(
        &self,
        count: u64,
        conditions: &StopConditions,
    ) -> Result<Option<(usize, Match)>, Refusal> {
        if !conditions.is_any() {
            return Ok(None);
        }
        let position = self.named.session.position();
        let steps = self.steps(position, position.saturating_add(count));
        let mut machine = self.named.session.machine().try_clone()?;
        Ok(first_found(&mut machine, steps, conditions))
    }

    /// The steps of the schedule between two positions.
    pub(crate) fn steps(&self, from: u64, to: u64) -> &[Step] {
        let schedule = self.named.session.schedule();
        let end = (to as usize).min(schedule.len());
        schedule.get(from as usize..end).unwrap_or(&[])
    }

    /// A slice back; why it ends there, or None where it goes on.
    fn slice_back(&mut self, search: OngoingMove) -> Result<Option<StopReason>, Refusal> {
        if self.points.is_empty() && !search.conditions.is_any() {
            self.to(search.goal)?;
            return Ok(Some(StopReason::Goal));
        }
        let before = self.named.session.position();
        let why = self.named.session.back_within(search.budget)?;
        let here = self.named.session.position();
        if let Some(position) = self.found_after(search)?
            && position >= search.goal
        {
            self.to(position)?;
            return Ok(Some(StopReason::Exception));
        }
        if here < search.goal || (here == search.goal && why != Some(Why::Stop)) {
            self.to(search.goal)?;
            return Ok(Some(StopReason::Goal));
        }
        match why {
            Some(Why::Stop) => Ok(Some(StopReason::Point)),
            Some(_) => Ok(Some(StopReason::Goal)),
            None => {
                self.search = Some(OngoingMove {
                    high: here.saturating_add(1),
                    budget: if here == before {
                        search.budget.saturating_mul(2)
                    } else {
                        search.budget
                    },
                    ..search
                });
                Ok(None)
            }
        }
    }

    /// The last position above the session's, and below where this slice began, after a step that meets the conditions.
    fn found_after(&self, search: OngoingMove) -> Result<Option<u64>, Refusal> {
        if !search.conditions.is_any() {
            return Ok(None);
        }
        let here = self.named.session.position();
        let steps = self.steps(here, search.high.saturating_sub(1));
        let mut machine = self.named.session.machine().try_clone()?;
        match last_found(&mut machine, steps, &search.conditions) {
            Some((count, _)) => Ok(Some(here.saturating_add(count as u64))),
            None => Ok(None),
        }
    }

    /// Goes to a position.
    pub(crate) fn to(&mut self, position: u64) -> Result<(), Refusal> {
        Ok(self.named.go_to(position)?)
    }
}
