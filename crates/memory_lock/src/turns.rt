//! A memory that two processors ask in turn: each request draws a ticket and is served when the ticket is. A run
//! through it leaves records that match the memory's history, so it is never torn (docs/ARCHITECTURE.md).

mod asking;
mod pairs;
mod ports;
mod rule;
mod runs;
mod tables;
mod views;

pub use ports::{TableBrand, TurnPort};
pub use rule::{Draw, Poll, Raise, Tickets, TurnMemory, TurnSeat, TurnTable, TwoSeats};
pub use runs::{run_threads, run_two};
pub use tables::{close_table, open_table};
pub use views::{Caller, Past, Stage, View};
