//! Who takes the next step.

ghost use Rattle.std.specs.Prelude.{◌≡◌, ◌∷◌, ◌++◌, [], IfSome};
ghost use Rattle.waiting.specs.Running.{running_steps};
ghost use Rattle.schedule_makers.specs.Choosers.{rule_of, Follows};

use crate::fair_choice::Fair;
use crate::left_out::LeftOut;
use crate::priorities::Priorities;
use crate::random_choice::step_by_word;
use crate::rounds_choice::next_in_rounds;
use crate::seed_words::SeedWords;
use crate::turns::turn_by_word;
use machine::Machine;
use processor::Step;

/// Takes one of the running streams after the other by a rule (docs/MACHINE.md, "Schedules").
#[derive(Drop)]
pub(crate) enum Chooser {
    /// In rounds.
    Rounds,
    /// The processors in turn, and of each its streams in turn.
    Fair(Fair),
    /// At random, by these words.
    Random(SeedWords),
    /// In turns of so many steps on average, by these words.
    Turns(u64, SeedWords),
    /// In turns of 8 steps by these words, for some steps without the stream that is left out.
    LeftOut(LeftOut, SeedWords),
    /// By these priorities, and then in turns by these words.
    Priorities(Priorities, SeedWords),
}

impl Chooser {
    /// The step that the rule takes after the steps that were made; None where no stream runs.
    pub(crate) fn choose<const S: usize>(
        &mut self,
        machine: &Machine<'_, S>,
        made: &[Step],
        running: &[Step],
    ) -> Option<Step>
        requires listed { running.now ≡ running_steps machine.now.world }
        requires follows { Follows self.old made.now }
        ensures is { result ≡ rule_of self.old made.now machine.now.image machine.now.world }
        ensures rule { rule_of self.new ≡ rule_of self.old }
        ensures follows { IfSome result (λ t. Follows self.new (made.now ++ t ∷ [])) }
    {
        match self {
            Chooser::Rounds => next_in_rounds(made, running),
            Chooser::Fair(fair) => fair.choose(made, running),
            Chooser::Random(words) => step_by_word(words.word_after(made), running),
            Chooser::Turns(average, words) => turn_by_word(
                *average,
                words.word_after(made),
                machine,
                made,
                running,
            ),
            Chooser::LeftOut(late, words) => late.choose(
                words.word_after(made),
                machine,
                made,
                running,
            ),
            Chooser::Priorities(priorities, words) => priorities.choose(
                words.word_after(made),
                machine,
                made,
                running,
            ),
        }
    }
}
