//! Requests that go to another position.

use crate::adapter::Adapter;
use crate::refusals::Refusal;
use crate::searching::{OngoingMove, StopReason};
use crate::stop_conditions::{StopConditions, first_found, last_found, runs};
use adapter_messages::{DapRequest, Events};
use editor_wire::Json;
use processor::Step;

impl<'a, 'i, 't> Adapter<'a, 'i, 't> {
    /// Begins the run: stops at the start, or goes on to the first stop.
    pub(crate) fn begin(&mut self, events: &mut Events) -> Result<(), Refusal> {
        if self.search.is_some() {
            return Ok(());
        }
        if self.origin.stops_on_entry {
            return self.report("entry", None, events);
        }
        self.search = Some(OngoingMove::forward(self.end(), None, self.conditions));
        Ok(())
    }

    /// Begins again at the start.
    pub(crate) fn restart(&mut self, events: &mut Events) -> Result<(), Refusal> {
        self.search = None;
        self.to(0)?;
        self.begin(events)
    }

    /// Ends what is under way, and says that it is over.
    pub(crate) fn terminate(&mut self, events: &mut Events) -> Result<(), Refusal> {
        self.search = None;
        Ok(events.push("terminated", Json::new(self.alloc))?)
    }

    /// Stops what is under way.
    pub(crate) fn pause(&mut self, events: &mut Events) -> Result<(), Refusal> {
        self.search = None;
        self.report("pause", None, events)
    }

    /// The last position.
    fn end(&self) -> u64 {
        self.named.session.schedule().len() as u64
    }

    /// On to the next stop, or to the end.
    pub(crate) fn go_forward(&mut self, body: &mut Json) -> Result<(), Refusal> {
        self.search = Some(OngoingMove::forward(self.end(), None, self.conditions));
        push_all_go_on(body);
        Ok(())
    }

    /// Back to the last stop, or to the start.
    pub(crate) fn go_backward(&mut self, body: &mut Json) -> Result<(), Refusal> {
        let position = self.named.session.position();
        self.search = Some(OngoingMove::backward(position, 0, None, self.conditions));
        push_all_go_on(body);
        Ok(())
    }

    /// On by one step, whoever's.
    pub(crate) fn step_once(&mut self) -> Result<(), Refusal> {
        let goal = self.named.session.position().saturating_add(1);
        self.search = Some(OngoingMove::forward(goal.min(self.end()), None, self.conditions));
        Ok(())
    }

    /// On until the stream has stepped.
    pub(crate) fn step_stream(&mut self, request: &DapRequest) -> Result<(), Refusal> {
        let stream = self.thread_of(request)?;
        let goal = self
            .named
            .session
            .next_of(stream.p, stream.s)
            .unwrap_or(self.end());
        self.search = Some(OngoingMove::forward(goal, Some(stream), self.conditions));
        Ok(())
    }

    /// On until the stream no longer runs.
    pub(crate) fn step_out(&mut self, request: &DapRequest) -> Result<(), Refusal> {
        let stream = self.thread_of(request)?;
        let goal = if runs(self.named.session.machine(), stream) {
            self.end()
        } else {
            self.named.session.position()
        };
        let conditions = StopConditions {
            end_of: Some(stream),
            ..self.conditions
        };
        self.search = Some(OngoingMove::forward(goal, Some(stream), conditions));
        Ok(())
    }

    /// Back to before the stream's last step, or to the start.
    pub(crate) fn step_back(&mut self, request: &DapRequest) -> Result<(), Refusal> {
        let stream = self.thread_of(request)?;
        let position = self.named.session.position();
        let mut goal: u64 = 0;
        for (place, step) in self.steps(0, position).iter().enumerate() {
            if *step == stream {
                goal = place as u64;
            }
        }
        self.search = Some(OngoingMove::backward(position, goal, Some(stream), self.conditions));
        Ok(())
    }

    /// To the next position, else the last before, at which the stream stands at a program word.
    pub(crate) fn go_to(
        &mut self,
        request: &DapRequest,
        events: &mut Events,
    ) -> Result<(), Refusal> {
        let stream = self.thread_of(request)?;
        let target = request.number("targetId").unwrap_or(u64::MAX);
        let Ok(word) = u32::try_from(target) else {
            return Err(Refusal::Words("there is no such target"));
        };
        let conditions = StopConditions {
            place: Some((stream, word)),
            ..StopConditions::nothing()
        };
        match self.next_match(&conditions)? {
            Some(position) => self.to(position)?,
            None => self.go_to_last_match(&conditions)?,
        }
        self.report("goto", Some(stream), events)
    }

    /// The position after the next step that meets the conditions.
    fn next_match(&self, conditions: &StopConditions) -> Result<Option<u64>, Refusal> {
        let position = self.named.session.position();
        let mut machine = self.named.session.machine().try_clone()?;
        let steps = self.steps(position, self.end());
        match first_found(&mut machine, steps, conditions) {
            Some((count, _)) => Ok(Some(position.saturating_add(count as u64))),
            None => Ok(None),
        }
    }

    /// Goes back to the last position after a step that meets the conditions, or refuses and stays.
    fn go_to_last_match(&mut self, conditions: &StopConditions) -> Result<(), Refusal> {
        let position = self.named.session.position();
        self.to(0)?;
        let mut machine = self.named.session.machine().try_clone()?;
        let steps = self.steps(0, position.saturating_sub(1));
        let found = last_found(&mut machine, steps, conditions);
        match found {
            Some((count, _)) => self.to(count as u64),
            None => {
                self.to(position)?;
                Err(Refusal::Words("the stream comes there at no position"))
            }
        }
    }

    /// Reports where a move ended.
    pub(crate) fn report_stop(
        &mut self,
        stop: StopReason,
        stream: Option<Step>,
        events: &mut Events,
    ) -> Result<(), Refusal> {
        let last = self.named.session.last_step();
        match stop {
            StopReason::Point => self.report_points(events),
            StopReason::Exception => self.report("exception", last, events),
            StopReason::Goal => self.report("step", stream, events),
        }
    }
}

/// Says that all streams go on together.
fn push_all_go_on(body: &mut Json) {
    body.open();
    body.truth_of("allThreadsContinued", true);
    body.close();
}
