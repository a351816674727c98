//! Threads that run an image's processors at once: gates that only pass where the processors really step at once and no
//! lock is held over a local step, and ports that are made by hand.
mod alternate;
mod counting;
mod engine_gates;
mod gates;
mod limits;
mod logs;
mod ports;
mod runs;
mod turn_limits;
mod turns;
