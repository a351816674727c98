//! Why parts or bytes are no image.

ghost use Rattle.std.specs.Prelude.{◌≡◌};
ghost use Rattle.image_file.specs.declared.fault.ImageFault.TheVariants.{NoMemory};
ghost use Rattle.image_file.specs.Fault.{image_fault_number};

use std::alloc::{AllocError, AllocFailed};

/// A number of an image that has limits, in the order in which they are looked at.
#[derive(Clone, Copy, Debug, PartialEq, Eq)]
pub enum CountField {
    /// The number of processors, 1 to 16.
    Processors,
    /// The most streams of a processor, 1 to 128.
    Slim,
    /// The chain limit of an image of Profile 2, 0 to 64.
    Chain,
    /// The number of program words, 1 to 65,536.
    Program,
    /// The number of data words, 1 to 262,144.
    Cells,
}

/// The first fault of parts or bytes that are no image, in the order of the variants.
#[derive(Clone, Copy, Debug, PartialEq, Eq)]
pub enum ImageFault {
    /// There are fewer than 26 bytes; or, after `Magic` and `Version`, fewer than the 28 of a header of version 2; or,
    /// after `Count`, fewer than the header asks for.
    Short,
    /// The first four bytes are not `MTAP`.
    Magic,
    /// The version is neither 1 nor 2.
    Version,
    /// A number is out of its limits: the first such field.
    Count(CountField),
    /// The entry of a processor is not below the number of program words: the least such processor.
    Entry(u8),
    /// The tags of a data word are above 15: the least such cell, counted from 0.
    TagByte(u32),
    /// Bytes stand after the last cell.
    Trailing,
    /// Memory was refused.
    NoMemory,
}

impl ImageFault {
    /// The fault's number, 1 to 8 in the order of the variants.
    pub fn number(self) -> u8
        ensures { result ≡ image_fault_number self }
    {
        match self {
            ImageFault::Short => 1,
            ImageFault::Magic => 2,
            ImageFault::Version => 3,
            ImageFault::Count(_) => 4,
            ImageFault::Entry(_) => 5,
            ImageFault::TagByte(_) => 6,
            ImageFault::Trailing => 7,
            ImageFault::NoMemory => 8,
        }
    }
}

impl From<AllocError> for ImageFault {
    ghost from_gives = { λ _ fault. fault ≡ NoMemory };

    fn from(_error: AllocError) -> ImageFault {
        ImageFault::NoMemory
    }
}

impl<T: Drop> From<AllocFailed<T>> for ImageFault {
    ghost from_gives = { λ _ fault. fault ≡ NoMemory };

    fn from(_error: AllocFailed<T>) -> ImageFault {
        ImageFault::NoMemory
    }
}
