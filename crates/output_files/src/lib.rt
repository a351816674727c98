//! The one way in which the lab writes files ("Files", docs/LAB_REFERENCE.md).
#![tactic(auto)]

mod appending;
mod contents;
mod folders;
mod identities;
mod making;
mod new_files;
mod places;
mod random_numbers;
mod replacing;
mod used_files;
mod write_faults;
mod writing;

pub use appending::{append, open_to_append};
pub use folders::make_folder;
pub use identities::FileIdentity;
pub use new_files::{NewFile, NotMade, make_new};
pub use used_files::UsedFiles;
pub use write_faults::WriteFault;
pub use writing::{Output, PathOrigin, write_whole};
