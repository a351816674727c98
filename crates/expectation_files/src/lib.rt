//! What a file of expectations says: of the end of a run, of the states on the way, of who does the work, and of the program
//! alone
//! ("Files of expectations", docs/LAB_REFERENCE.md). It is the one reader of such files.
#![tactic(auto)]

mod addresses;
mod all_faults;
mod claim_lines;
mod claim_streams;
mod claim_tests;
mod compared_words;
mod end_lines;
mod faults;
mod leads_lines;
mod lines;
mod marks;
mod overtaking_lines;
mod reading;
mod requirements;
mod rest_lines;
mod rule_lines;
mod values;
mod word_lines;
mod word_spans;
mod words;
mod work_lines;
mod written_lines;

pub use addresses::KnownNames;
pub use all_faults::{file_faults, form_faults, widest_image};
pub use faults::{FileFault, LineFault, LineFaultKind, LineForm};
pub use marks::{CaseMarks, case_marks};
pub use reading::read_requirements;
pub use requirements::{NEVER_BUSY, NEVER_STARVED, Requirements, WrittenLine, are_rules_kept};
pub use word_spans::{WordSpan, word_span};
pub use words::word_of;
pub use written_lines::{line_of, written_line};
