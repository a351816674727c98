//! The rule that a seed's number says.

ghost use Rattle.std.specs.Prelude.{◌≡◌, []};
ghost use Rattle.schedule_makers.specs.Seeds.{rule_of_seed};
ghost use Rattle.schedule_makers.specs.Choosers.{rule_of, Follows};

use crate::chooser::Chooser;
use crate::left_out::LeftOut;
use crate::priorities::Priorities;
use crate::seed_words::SeedWords;

/// The chooser of a seed, where the fair run has so many steps.
pub(crate) fn chooser_of_seed(seed: u64, fair_steps: usize) -> Chooser
    ensures rule { rule_of result ≡ rule_of_seed seed fair_steps }
    ensures follows { Follows result [] }
{
    let words = SeedWords::new(seed);
    match seed % 8 {
        0 => Chooser::Random(words),
        4 => Chooser::LeftOut(LeftOut::new(seed, fair_steps), words),
        1 | 5 => Chooser::Turns(8, words),
        2 | 6 => Chooser::Turns(32, words),
        _ => Chooser::Priorities(Priorities::new(seed, fair_steps), words),
    }
}
