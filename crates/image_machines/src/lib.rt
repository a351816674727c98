//! Machines of images, with room for as many streams as an image needs.
#![tactic(auto)]

mod loading;
mod rooms;

pub use loading::loaded;
