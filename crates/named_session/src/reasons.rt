//! Why a stream waits: the word, the state that it wants, and the step that left the word as it is.

ghost use Rattle.std.specs.Prelude.{◌≡◌, ◌↔◌, ◌+◌, ℕ, Bool, Some, IfOk, OnOk};
ghost use Rattle.waiting.specs.Waits.{IsWaitOf};
ghost use Rattle.replay_debugger.specs.Sessions.{session_world};
ghost use Rattle.replay_debugger.specs.StopFinders.{IsLastBelow};
ghost use Rattle.named_session.specs.WordTurns.{is_turned, turns_word};

use crate::named_session::NamedSession;
use debug_commands::{Command, DebugFault};
use replay_debugger::Session;
use tag_memory::Word;
use waiting::{Wait, wait_of};

impl<'i, 't, const S: usize> NamedSession<'i, 't, S> {
    /// What a stream waits for at the session's position: Some exactly where its next step asks the memory and the
    /// memory would block it.
    pub fn wait(&self, p: u8, s: u8) -> Option<Wait>
        ensures { (wait : Wait) → (result ≡ Some wait)
            ↔ IsWaitOf (record { image = self.now.session.image; world = session_world self.now.session })
            (record { p = p; s = s }) wait }
    {
        wait_of(self.session.machine(), p, s)
    }

    /// The last position, up to the session's own, to which a step filled or emptied the word at a byte address; None
    /// where none did. The steps up to there are taken once more.
    pub fn last_turn(&self, address: u64) -> Result<Option<u64>, DebugFault>
        ensures { IfOk result (IsLastBelow (turns_word self.now.session address) (self.now.session.position + 1)) }
    {
        let mut other = self.session.try_clone()?;
        let _ = other.command(&Command::Go(0))?;
        let mut last = None;
        for index in 0..self.session.position() {
            let turned = step_turns(&mut other, address)?;
            last = later(last, turned, index + 1);
        }
        Ok(last)
    }
}

/// Takes the next step of a session's schedule, and says whether it filled or emptied the word at a byte address.
fn step_turns<const S: usize>(session: &mut Session<S>, address: u64) -> Result<bool, DebugFault>
    ensures goes { OnOk result (session.new ≡ record session.old { position = session.old.position + 1 }) }
    ensures turns { IfOk result (λ turned. turned ≡ turns_word session.old address (session.old.position + 1)) }
{
    let before = session.machine().word(address);
    let _ = session.command(&Command::Forward(1))?;
    let now = session.machine().word(address);
    Ok(is_turned(before, now))
}

/// The last of the numbers up to this one that pass a test, where `last` is the last below it, and it passes or not.
fn later(last: Option<u64>, passes: bool, number: u64) -> Option<u64>
    ensures { (test : ℕ → Bool) → passes ≡ test number → IsLastBelow test number last
        → IsLastBelow test (number + 1) result }
{
    if passes { Some(number) } else { last }
}

/// Whether a word was full and is empty, or the other way round.
fn is_turned(before: Option<Word>, now: Option<Word>) -> bool
    ensures { result ≡ is_turned before now }
{
    match (before, now) {
        (Some(before), Some(now)) => before.is_full() != now.is_full(),
        _ => false,
    }
}
