//! The step that led to a session's position, and words for what a session refuses.

ghost use Rattle.std.specs.Prelude.{◌≡◌, ◌↔◌, ◌<◌, ◌≤◌, ◌-◌, ◌⊎◌, None, length, IfOk, IfErr, IfSome, OnOk, OnErr};
ghost use Rattle.replay_debugger.specs.StreamSteps.{step_to};
ghost use Rattle.named_session.specs.LastSteps.{at_position, machine_seen, IsLastStep};

use crate::named_session::NamedSession;
use debug_commands::{Command, DebugFault};
use machine::Machine;
use std::alloc::Global;
use step_views::{StepView, take_step};

/// A step, taken once more.
#[derive(Drop)]
pub struct LastStep<'i, const S: usize> {
    /// What it did.
    pub view: StepView,
    /// The machine after it.
    pub machine: Machine<'i, S>,
}

impl<'i, 't, const S: usize> NamedSession<'i, 't, S> {
    /// Goes to a position. A refusal leaves the session where it was.
    ///
    /// `Past` exactly if the schedule has no such position; else `NoMemory` where memory is refused.
    pub fn go_to(&mut self, position: u64) -> Result<(), DebugFault>
        ensures goes { OnOk result (self.new
            ≡ record self.old { session = at_position self.old.session position }) }
        ensures past { (result ≡ Err DebugFault.Past) ↔ (length self.old.session.schedule < position) }
        ensures faults { IfErr result (λ f. (f ≡ DebugFault.Past) ⊎ (f ≡ DebugFault.NoMemory)) }
        ensures err { OnErr result (self.new ≡ self.old) }
    {
        let _ = self.session.command(&Command::Go(position))?;
        Ok(())
    }

    /// The step that led to the session's position, taken once more; None at the start. The session is at its own position
    /// again then, unless memory is refused for the way back.
    pub fn last_view(&mut self, alloc: Global) -> Result<Option<LastStep<'i, S>>, DebugFault>
        ensures none { IfOk result (λ seen. (seen ≡ None)
            ↔ (step_to self.old.session.schedule self.old.session.position ≡ None)) }
        ensures last { IfOk result (λ seen.
            IfSome seen (λ last. IsLastStep self.old.session last.view last.machine)) }
        ensures stays { OnOk result (self.new ≡ self.old) }
        ensures err { OnErr result ((self.new ≡ self.old)
            ⊎ (self.new ≡ record self.old {
              session
                  = at_position self.old.session (self.old.session.position - 1);
            })) }
    {
        let Some(step) = self.session.last_step() else {
            return Ok(None);
        };
        let before = self.session.position().saturating_sub(1);
        let mut machine = self.machine_at(before)?;
        let view = take_step(alloc, &mut machine, step)?;
        Ok(Some(LastStep { view, machine }))
    }

    /// The machine at a position. The session is at its own again then, unless memory is refused for the way back.
    pub fn machine_at(&mut self, asked: u64) -> Result<Machine<'i, S>, DebugFault>
        ensures is { IfOk result (λ machine. machine ≡ machine_seen self.old.session asked) }
        ensures past { length self.old.session.schedule < asked → result ≡ Err DebugFault.Past }
        ensures stays { OnOk result (self.new ≡ self.old) }
        ensures err { OnErr result ((self.new ≡ self.old)
            ⊎ (self.new ≡ record self.old { session = at_position self.old.session asked })) }
    {
        let position = self.session.position();
        self.go_to(asked)?;
        let machine = self.session.machine().try_clone();
        self.go_to(position)?;
        Ok(machine?)
    }
}

/// Why a session refuses a command, in words; None where memory was refused.
pub fn fault_words(fault: DebugFault) -> Option<&'static str> {
    match fault {
        DebugFault::Syntax => Some("this cannot be read"),
        DebugFault::NoSuchStream => Some("there is no such stream"),
        DebugFault::NoSuchWord => Some("there is no word at this address"),
        DebugFault::NoSuchPoint => Some("there is no point of this number"),
        DebugFault::Past => Some("the schedule has no such position"),
        DebugFault::NoMemory => None,
    }
}
