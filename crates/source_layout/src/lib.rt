//! One layout of source texts: labels, statements and comments in columns, the image and the comments unchanged
//! (docs/WRITING_PROGRAMS.md, "One layout").
#![tactic(auto)]

mod comments;
mod lines;
mod same_image;
mod statements;

pub use same_image::{laid_out, mean_one_image};
