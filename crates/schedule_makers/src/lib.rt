//! Schedules that are made step by step of the streams that run: in rounds, fairly, at random, in turns, with one stream
//! left out, or by priorities (docs/MACHINE.md, "Schedules").
#![tactic(auto)]

mod advancing;
mod chooser;
mod fair_choice;
mod fair_lengths;
mod free_streams;
mod highest;
mod laws;
mod left_out;
mod looking;
mod made;
mod makers;
mod making;
mod priorities;
mod random_choice;
mod rounds_choice;
mod seed_words;
mod seeds;
mod standstills;
mod steps_at;
mod turns;

pub use fair_lengths::fair_length;
pub use laws::{made_schedules_are_one, seeds_take_free_streams};
pub use made::{MadeEnd, MadeSchedule};
pub use makers::{fair, random, rounds, seeded};
