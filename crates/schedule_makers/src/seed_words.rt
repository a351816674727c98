//! The words of a seed, one a step.

ghost use Rattle.std.specs.Prelude.{◌≡◌, ◌∷◌, ◌++◌, [], ◌+◌, List, length};
ghost use Rattle.processor.specs.declared.steps.Step.{Step};
ghost use Rattle.schedule_makers.specs.Randomness.{generator_after, random_word};
ghost use Rattle.schedule_makers.specs.Words.{AreWordsAfter};

use processor::Step;
use rand_xoshiro::Xoshiro256PlusPlus;
use rand_xoshiro::rand_core::SeedableRng;
use rand_xoshiro::rand_core::utils::NextWord;

/// The generator of a seed, which gives a word a step.
#[derive(Drop)]
pub(crate) struct SeedWords {
    seed: u64,
    generator: Xoshiro256PlusPlus,
}

impl SeedWords {
    pub(crate) fn new(seed: u64) -> SeedWords
        ensures seed { result.seed ≡ seed }
        ensures begins { AreWordsAfter result [] }
    {
        SeedWords {
            seed,
            generator: Xoshiro256PlusPlus::seed_from_u64(seed),
        }
    }

    /// The word for the step after those that were made.
    pub(crate) fn word_after(&mut self, made: &[Step]) -> u64
        requires { AreWordsAfter self.old made.now }
        ensures is { result ≡ random_word self.old.seed (length made.now) }
        ensures seed { self.new.seed ≡ self.old.seed }
        ensures more { (t : Step) → AreWordsAfter self.new (made.now ++ t ∷ []) }
    {
        self.generator.next_word()
    }
}
