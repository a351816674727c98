//! Does one thing again and again, without any text: steps of a machine, recorded runs and the schedules that are
//! gathered of them, processors run at once, sessions of the debugger, copies, or the bytes of the largest image.

mod copies;
mod counts;
mod debugger_runs;
mod image_bytes;
mod loops;
mod machine_steps;
mod recorded_runs;
mod threaded_runs;

pub(crate) use counts::count_of;
