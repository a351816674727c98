//! The run of all processors at once over one memory: how threads reach it, how a processor is driven through it, by a
//! lock or, of two processors, in turn (docs/MACHINE.md, "Histories"; docs/ARCHITECTURE.md). What the threads leave is
//! gathered in `shared_history`, whose names are handed on here.
#![tactic(auto)]

mod back_off;
mod driving;
mod gates;
mod lock_ports;
mod ports;
mod requests;
mod started_memory;
mod threaded_runs;
mod threads;
mod turns;

pub use driving::drive;
pub use gates::{FreeGate, Gate};
pub use lock_ports::LockPort;
pub use ports::Port;
pub use shared_history::{GatherFault, NoRoom, Parts, PartsFault, SharedMemory, Woven, gather};
pub use started_memory::{LockedMemory, StartBrand, StartedMemory};
pub use threaded_runs::{ThreadsFault, threaded};
pub use threads::{Worker, run_by_lock};
pub use turns::{
    Caller, Draw, Past, Poll, Raise, Stage, TableBrand, Tickets, TurnMemory, TurnPort, TurnSeat,
    TurnTable, TwoSeats, View, close_table, open_table, run_threads, run_two,
};
