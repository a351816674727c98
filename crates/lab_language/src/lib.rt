//! The command `lsp`: the language in editors.
#![tactic(auto)]

mod serving;
mod transport;

pub use serving::serve_language;
