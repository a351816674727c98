//! Streams as threads with one frame each.

use crate::adapter::Adapter;
use crate::refusals::Refusal;
use adapter_messages::DapRequest;
use editor_wire::Json;
use lab_texts::push_stream;
use processor::Step;
use stream_core::Status;

/// The number of a stream as a thread, and of its frame.
pub(crate) fn thread_id(stream: Step) -> u64 {
    u64::from(stream.p) * 256 + u64::from(stream.s) + 1
}

/// The stream of a thread or frame; None where the number is none's.
pub(crate) fn stream_of_id(id: u64) -> Option<Step> {
    let number = id.checked_sub(1)?;
    Some(Step {
        p: u8::try_from(number / 256).ok()?,
        s: (number % 256) as u8,
    })
}

impl<'a, 'i, 't> Adapter<'a, 'i, 't> {
    /// The stream of a request's thread.
    pub(crate) fn thread_of(&self, request: &DapRequest) -> Result<Step, Refusal> {
        self.stream_of(request.number("threadId").unwrap_or(0))
    }

    /// The stream of a thread or frame.
    pub(crate) fn stream_of(&self, id: u64) -> Result<Step, Refusal> {
        if let Some(step) = stream_of_id(id)
            && u16::from(step.s) < self.named.session.machine().image().slim()
            && self.named.pc(step.p, step.s).is_some()
        {
            return Ok(step);
        }
        Err(Refusal::Words("there is no such stream"))
    }

    /// A stream's status; None where there is no such stream.
    pub(crate) fn status(&self, step: Step) -> Option<Status> {
        let stream = self.named.session.machine().stream(step.p, step.s)?;
        Some(stream.status())
    }

    /// The streams that run, have stopped, or were reported last.
    pub(crate) fn threads(&self, body: &mut Json) -> Result<(), Refusal> {
        let slim = self.named.session.machine().image().slim();
        body.open();
        body.open_list("threads");
        for p in 0..self.named.session.machine().image().processors() {
            for s in 0..slim.min(256) {
                let step = Step {
                    p: p as u8,
                    s: s as u8,
                };
                if self.status(step) != Some(Status::Idle) || step == self.last_stream {
                    self.push_thread(step, body)?;
                }
            }
        }
        body.close_list();
        body.close();
        Ok(())
    }

    /// Adds a stream to the list of threads.
    fn push_thread(&self, step: Step, body: &mut Json) -> Result<(), Refusal> {
        let mut name = String::new(self.alloc);
        push_stream(&mut name, step.p, step.s)?;
        name.push_str(" ")?;
        self.push_place_of(step, &mut name)?;
        body.open();
        body.number_of("id", thread_id(step));
        body.text_of("name", &name);
        body.close();
        Ok(())
    }

    /// Adds the place at which a stream stands, or that it is idle.
    fn push_place_of(&self, step: Step, out: &mut String) -> Result<(), Refusal> {
        match self.named.pc(step.p, step.s) {
            Some(pc) if self.status(step) != Some(Status::Idle) => Ok(
                self.names.push_place(out, pc)?,
            ),
            _ => Ok(out.push_str("idle")?),
        }
    }

    /// The frame of a stream.
    pub(crate) fn stack_trace(&self, request: &DapRequest, body: &mut Json) -> Result<(), Refusal> {
        let step = self.thread_of(request)?;
        body.open();
        body.open_list("stackFrames");
        if request.number("startFrame").unwrap_or(0) == 0 {
            self.push_frame(step, body)?;
        }
        body.close_list();
        body.number_of("totalFrames", 1);
        body.close();
        Ok(())
    }

    /// Adds the frame of a stream.
    fn push_frame(&self, step: Step, body: &mut Json) -> Result<(), Refusal> {
        let pc = self.named.pc(step.p, step.s).unwrap_or(0);
        let mut name = String::new(self.alloc);
        self.push_place_of(step, &mut name)?;
        body.open();
        body.number_of("id", thread_id(step));
        body.text_of("name", &name);
        if self.status(step) == Some(Status::Idle) || pc >= self.names.words() {
            body.number_of("line", 0);
            body.number_of("column", 0);
            body.close();
            return Ok(());
        }
        self.push_source("source", body);
        body.number_of("line", self.client_line(pc));
        body.number_of("column", self.origin.client.first_column);
        body.reference_of("instructionPointerReference", u64::from(pc));
        body.close();
        Ok(())
    }
}
