//! Fair rounds: closed walks of a graph whose edges are steps of streams, in which each stream gets what it is due. And ways
//! that come into places again and again.
#![tactic(auto)]

mod adjacent;
mod checked_rounds;
mod classes;
mod entries;
mod graphs;
mod labels;
mod lassos;
mod levels;
mod marks;
mod reached;
mod rounds;
mod sought_rounds;
mod starving;
mod trims;

pub use classes::{is_inside, is_step};
pub use entries::{EnteringWay, EntriesAnswer, find_entries};
pub use graphs::{Answer, Edge, Round, Standing};
pub use lassos::{Lasso, LassoAnswer, SoughtWays, Tail, find_lasso};
pub use rounds::fair_round;
pub use starving::{fair_round_by_steps, standings_at_rest, starving_round};
