//! Source texts of programs: the image that a text means, and the listing of an image
//! (docs/WRITING_PROGRAMS.md and "Listing").
#![tactic(auto)]

mod draft;
mod fault;
mod laws;
mod listings;
mod reassembly;
mod runs;
mod settings;
mod source;
mod source_laws;
mod spelling;

pub use asm_line::Fault;
pub use fault::AsmFault;
pub use laws::{cells_are_their_runs, listings_are_read_back};
pub use listings::listing;
pub use reassembly::reassemble;
pub use source::{Outline, assemble, outline_of};
pub use source_laws::{
    data_is_one_full_cell, faults_are_on_their_least_line, first_profile_line_decides,
    labels_stand_on_their_least_line,
};
