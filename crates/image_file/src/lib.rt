//! Images: what a machine starts with, and the bytes of an image file
//! (docs/MACHINE.md, "Images"; docs/FORMATS.md, "Image files").
#![tactic(auto)]

mod checking;
mod fault;
mod fields;
mod header;
mod image;
mod laws;
mod parts;
mod reading;
mod versions;
mod writing;

pub use fault::{CountField, ImageFault};
pub use image::Image;
pub use laws::image_bytes_laws;
pub use parts::{MAX_PROCESSORS, MAX_PROGRAM_WORDS};
pub use reading::read_image;
pub use writing::write_image;
