//! How the run of a session ends.

use crate::debug_repl::DebugRepl;
use debug_commands::Command;
use end_kinds::EndKind;
use lab_ends::RunFindings;
use machine::Machine;
use printed_lines::parts::LabFault;
use printed_lines::parts::texts::{NumberStyle, TextWriter, end_of, put_differing_words, put_end};
use step_views::StepView;
use whole_runs::run_views;

/// The run of a session from its start to its position.
#[derive(Drop)]
struct RunHere<'i, const S: usize> {
    machine: Machine<'i, S>,
    views: Vec<StepView>,
}

impl<'a, 'i, 't, const S: usize> DebugRepl<'a, 'i, 't, S> {
    /// Goes where a command leads and, if that is the end of the schedule, shows how the run ends.
    pub(crate) fn go(&mut self, command: &Command, out: &mut TextWriter) -> Result<(), LabFault> {
        self.move_by(command, out)?;
        self.put_end_here(true, out)
    }

    /// Adds how the run ends, the words that it changed, and its findings, if the session is at the schedule's end; of
    /// a run that could go on, only if that is shown too.
    pub(crate) fn put_end_here(
        &mut self,
        is_unfinished_shown: bool,
        out: &mut TextWriter,
    ) -> Result<(), LabFault> {
        if self.named.session.next_step().is_some() {
            return Ok(());
        }
        let run = self.run_here()?;
        let end = end_of(self.alloc, &run.machine, &run.views)?;
        if end.kind == EndKind::OutOfSteps && !is_unfinished_shown {
            return Ok(());
        }
        let style = NumberStyle::Decimal;
        put_end(out, self.names, run.views.len(), &end);
        put_differing_words(out, self.names, style, &run.machine);
        self.put_findings(style, out)
    }

    /// Adds the findings of the run by the whole schedule.
    fn put_findings(&self, style: NumberStyle, out: &mut TextWriter) -> Result<(), LabFault> {
        let session = &self.named.session;
        let (image, steps) = (session.machine().image(), session.schedule());
        let found = RunFindings::of::<S>(self.alloc, image, steps)?;
        found.put(out, self.names, style);
        Ok(())
    }

    /// The run by the whole schedule.
    fn run_here(&mut self) -> Result<RunHere<'i, S>, LabFault> {
        let mut machine = match self.named.machine_at(0) {
            Ok(machine) => machine,
            Err(_) => return Err(LabFault::NoMemory),
        };
        let views = run_views(self.alloc, &mut machine, self.named.session.schedule())?;
        Ok(RunHere { machine, views })
    }
}
