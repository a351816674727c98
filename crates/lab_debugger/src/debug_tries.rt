//! Steps in place of the schedule's, and how they are taken back.

use crate::debug_repl::{DebugRepl, refuse};
use crate::debug_shows::{NO_STREAM, put_idle};
use debug_commands::Command;
use named_session::{UserName, read_name};
use printed_lines::parts::LabFault;
use printed_lines::parts::texts::{RunPieces, TextWriter, plural};
use processor::Step;
use stream_core::Status;

/// What a try dropped.
#[derive(Drop)]
pub(crate) struct Dropped {
    /// The position of the session before it.
    position: u64,
    /// The steps of the schedule that came next.
    steps: Vec<Step>,
}

impl<'a, 'i, 't, const S: usize> DebugRepl<'a, 'i, 't, S> {
    /// A step of a stream in place of the schedule's next; the schedule from there on goes.
    pub(crate) fn take(&mut self, rest: &str, out: &mut TextWriter) -> Result<(), LabFault> {
        let Some(UserName::Stream(step)) = read_name(rest) else {
            out.put("try takes a stream, as 2.0\n");
            return Ok(());
        };
        if !self.has(step) {
            out.put(NO_STREAM);
            return Ok(());
        }
        if !self.runs(step) {
            put_idle(step, out);
            return Ok(());
        }
        let dropped = self.steps_to_come()?;
        let position = dropped.position;
        match self.named.session.replace_schedule_from(position, &[step]) {
            Ok(()) => self.go_on_from(dropped, out),
            Err(fault) => refuse(fault, out),
        }
    }

    /// Takes the step that is tried, and says what it dropped.
    fn go_on_from(&mut self, dropped: Dropped, out: &mut TextWriter) -> Result<(), LabFault> {
        put_dropped(dropped.steps.len(), out);
        self.tried.push(dropped)?;
        self.move_by(&Command::Forward(1), out)?;
        self.put_end_here(false, out)
    }

    /// The steps of the schedule that come next.
    fn steps_to_come(&self) -> Result<Dropped, LabFault> {
        let session = &self.named.session;
        let position = session.position();
        let next = session.schedule().get(position as usize..);
        Ok(Dropped {
            position,
            steps: Vec::from_slice(self.alloc, next.unwrap_or(&[]))?,
        })
    }

    /// Takes the last try back: the schedule and the position are those before it.
    pub(crate) fn undo(&mut self, out: &mut TextWriter) -> Result<(), LabFault> {
        let Some(Dropped { position, steps }) = self.tried.pop() else {
            out.put("there is no try to take back\n");
            return Ok(());
        };
        match self.named.session.replace_schedule_from(position, &steps) {
            Ok(()) => {
                out.put("the try is taken back: the schedule has ");
                let steps = self.named.session.schedule().len();
                out.put_number(steps as u64);
                out.put(" step");
                out.put(plural(steps));
                out.put("\n");
                self.move_by(&Command::Go(position), out)
            }
            Err(fault) => refuse(fault, out),
        }
    }

    /// Whether the program has a stream. A stream from the image's slim on is not there, whatever the machine's room is.
    pub(crate) fn has(&self, step: Step) -> bool {
        let machine = self.named.session.machine();
        u16::from(step.s) < machine.image().slim() && machine.stream(step.p, step.s).is_some()
    }

    /// Whether a stream runs.
    fn runs(&self, step: Step) -> bool {
        match self.named.session.machine().stream(step.p, step.s) {
            Some(stream) => matches!(stream.status(), Status::Running),
            None => false,
        }
    }

    /// Whether a stream is not started, or has quit. Such a one stands at no instruction.
    pub(crate) fn is_idle(&self, step: Step) -> bool {
        match self.named.session.machine().stream(step.p, step.s) {
            Some(stream) => matches!(stream.status(), Status::Idle),
            None => false,
        }
    }
}

/// Adds how many steps a try dropped, if any.
fn put_dropped(count: usize, out: &mut TextWriter) {
    match count {
        0 => {}
        1 => out.put("1 step of the schedule is dropped; undo takes it back\n"),
        _ => {
            out.put_number(count as u64);
            out.put(" steps of the schedule are dropped; undo takes them back\n");
        }
    }
}
