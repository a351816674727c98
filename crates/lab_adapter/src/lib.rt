//! The command `dap`: the debugger in editors.
#![tactic(auto)]

mod loading;
mod serving;
mod transport;

pub use serving::adapt;
