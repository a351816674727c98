//! Turns: a stream goes on for some steps, and then another free one does.

ghost use Rattle.std.specs.Prelude.{◌≡◌, ◌<◌};
ghost use Rattle.waiting.specs.Running.{running_steps};
ghost use Rattle.schedule_makers.specs.Turns.{same_turn, turn_but, turn_by_word};

use crate::free_streams::{free_by_word, is_free_but};
use crate::rounds_choice::next_in_rounds;
use machine::Machine;
use processor::Step;

/// The next step, by a word of 64 bits, where a turn has so many steps on average.
pub(crate) fn turn_by_word<const S: usize>(
    average: u64,
    word: u64,
    machine: &Machine<'_, S>,
    made: &[Step],
    running: &[Step],
) -> Option<Step>
    requires some { 0 < average }
    requires listed { running.now ≡ running_steps machine.now.world }
    ensures { result ≡ turn_by_word average word made.now machine.now.image machine.now.world }
{
    if let Some(step) = turn_but(average, word, None, machine, made, running) {
        return Some(step);
    }
    next_in_rounds(made, running)
}

/// The same among the free streams but that of a step, if there is one; None where no other is free.
pub(crate) fn turn_but<const S: usize>(
    average: u64,
    word: u64,
    out: Option<Step>,
    machine: &Machine<'_, S>,
    made: &[Step],
    running: &[Step],
) -> Option<Step>
    requires some { 0 < average }
    requires listed { running.now ≡ running_steps machine.now.world }
    ensures { result ≡ turn_but average word out made.now machine.now.image machine.now.world }
{
    if let Some(step) = same_turn(average, word, out, machine, made.last().copied()) {
        return Some(step);
    }
    free_by_word(word, out, machine, running)
}

/// The step of the stream that made the last one, if it is free, is not left out, and its turn goes on.
fn same_turn<const S: usize>(
    average: u64,
    word: u64,
    out: Option<Step>,
    machine: &Machine<'_, S>,
    last: Option<Step>,
) -> Option<Step>
    requires { 0 < average }
    ensures { result ≡ same_turn average word out machine.now.image machine.now.world last }
{
    let step = last?;
    let goes_on = word % average != 0 && is_free_but(out, machine, step);
    goes_on.then_some(step)
}
