//! Events where a move ends, and what the last step did.

use crate::adapter::Adapter;
use crate::breaking::PointKind;
use crate::refusals::Refusal;
use crate::streams::thread_id;
use adapter_messages::Events;
use editor_wire::Json;
use lab_texts::{Notation, NumberStyle, plural, push_step_line, push_trap};
use named_session::LastStep;
use processor::Step;
use step_views::StepView;
use stream_core::Outcome;

impl<'a, 'i, 't> Adapter<'a, 'i, 't> {
    /// Reports a stop, for a reason, of a stream: None for that of the next step, or else of the last.
    pub(crate) fn report(
        &mut self,
        reason: &str,
        stream: Option<Step>,
        events: &mut Events,
    ) -> Result<(), Refusal> {
        let keys = Vec::new(self.alloc);
        self.report_with(reason, stream, &keys, events)
    }

    /// Reports a stop at points.
    pub(crate) fn report_points(&mut self, events: &mut Events) -> Result<(), Refusal> {
        let keys = self.named.session.stopping_points(self.alloc)?;
        let mut numbers = Vec::new(self.alloc);
        let mut kind = PointKind::Data;
        for key in keys.iter() {
            if let Some(point) = self.known_point(*key) {
                if kind == PointKind::Data {
                    kind = point.kind;
                }
                numbers.push(point.breakpoint)?;
            }
        }
        let (reason, stream) = match kind {
            PointKind::Line => ("breakpoint", self.named.session.next_step()),
            PointKind::Function => ("function breakpoint", self.named.session.next_step()),
            PointKind::Data => ("data breakpoint", self.named.session.last_step()),
        };
        self.report_with(reason, stream, &numbers, events)
    }

    /// Reports a stop with the numbers of the breakpoints that it is at.
    fn report_with(
        &mut self,
        reason: &str,
        stream: Option<Step>,
        numbers: &[u64],
        events: &mut Events,
    ) -> Result<(), Refusal> {
        self.report_last_step(events)?;
        let stream = stream.unwrap_or(self.usual_stream());
        self.last_stream = stream;
        let position = self.named.session.position();
        let steps = self.named.session.schedule().len();
        let end = if self.named.session.next_step().is_none() {
            ": the schedule ends here"
        } else {
            ""
        };
        let some_steps = plural(steps);
        let description = format!(in self.alloc;
            "after {position} of {steps} step{some_steps}{end}"
        )?;
        let mut body = Json::new(self.alloc);
        body.open();
        body.text_of("reason", reason);
        body.text_of("description", &description);
        body.number_of("threadId", thread_id(stream));
        body.truth_of("allThreadsStopped", true);
        body.open_list("hitBreakpointIds");
        for number in numbers {
            body.number(*number);
        }
        body.close_list();
        body.close();
        Ok(events.push("stopped", body)?)
    }

    /// The stream of the next step, or else of the last.
    pub(crate) fn usual_stream(&self) -> Step {
        match self.named.session.next_step() {
            Some(step) => step,
            None => self.named.session.last_step().unwrap_or(self.last_stream),
        }
    }

    /// Reports the line of the step that led to the position, where there is one.
    fn report_last_step(&mut self, events: &mut Events) -> Result<(), Refusal> {
        let Some((_, line)) = self.last_view()? else {
            return Ok(());
        };
        let mut body = Json::new(self.alloc);
        body.open();
        body.text_of("category", "console");
        body.text_of("output", &line);
        body.close();
        Ok(events.push("output", body)?)
    }

    /// What the step did that led to the position, and its line: it is taken once more. None at the start.
    fn last_view(&mut self) -> Result<Option<(StepView, String)>, Refusal> {
        let Some(LastStep { view, machine }) = self.named.last_view(self.alloc)? else {
            return Ok(None);
        };
        let position = self.named.session.position();
        let mut line = String::new(self.alloc);
        let notation = Notation {
            names: self.names,
            style: NumberStyle::Decimal,
        };
        let number = position as usize;
        push_step_line(&mut line, notation, self.columns, number, &view, &machine)?;
        Ok(Some((view, line)))
    }

    /// What the trap was, or what was blocked, at the last step.
    pub(crate) fn exception_info(&mut self, body: &mut Json) -> Result<(), Refusal> {
        let Some((view, line)) = self.last_view()? else {
            return Err(Refusal::Words("no step has been taken"));
        };
        let mut name = String::new(self.alloc);
        match view.outcome {
            Outcome::Trapped(trap) | Outcome::Stopped(trap) => push_trap(&mut name, trap)?,
            Outcome::Blocked => name.push_str("blocked")?,
            Outcome::Done | Outcome::Skipped => return Err(Refusal::Words(
                "the last step neither trapped nor was blocked",
            )),
        }
        body.open();
        body.text_of("exceptionId", &name);
        body.text_of("description", line.trim());
        body.text_of("breakMode", "always");
        body.close();
        Ok(())
    }
}
