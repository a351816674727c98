//! What a seat at the table knows. No value of these types is made: they stand in proofs alone.

use image_file::Image;
use processor::{Asked, Entry};
use std::collections::LinkedList;

/// What a memory has done so far.
pub struct Past {
    /// The image whose memory it was at first.
    pub image: Image,
    /// What was asked of it since.
    pub history: LinkedList<Entry>,
}

/// How far a call is.
pub enum Stage {
    /// There is none.
    Idle,
    /// It drew this ticket.
    Waits(u64),
    /// Its ticket is served, and it has the memory, with the past that it found.
    Holds(u64, Past),
}

/// What a processor did at the table.
pub struct Caller {
    /// How many tickets it drew.
    pub asks: u64,
    /// How far its call is.
    pub stage: Stage,
    /// What it asked and was answered, in order.
    pub made: LinkedList<Asked>,
}

/// What a seat knows.
pub struct View {
    /// Whether another seat took it in: then it stands for no processor.
    pub is_spent: bool,
    /// The processor that it stands for, 0 or 1.
    pub number: u8,
    /// What that processor did.
    pub own: Caller,
    /// What the other one did, where the seat stands for both.
    pub other: Option<Caller>,
}
