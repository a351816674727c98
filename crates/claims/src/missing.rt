//! What a claim speaks of that a program does not have.

ghost use Rattle.std.specs.Prelude.{◌≡◌, not, find};
ghost use Rattle.claims.specs.Missing.{missing_in, has_word, has_stream, missing_word, missing_of_range, missing_of_groups};

use crate::claim::{Claim, ClaimForm, StreamGroup};
use image_file::Image;
use machine::processors::Step;

/// A part of a machine that a claim speaks of, and that the machine of an image does not have.
#[derive(Clone, Copy, Debug, PartialEq, Eq)]
pub enum Missing {
    /// No word has the byte address.
    Word,
    /// This is no stream of one of the processors.
    Stream(Step),
    /// The range goes past the last program word.
    Place,
}

impl Claim {
    /// What it speaks of that the machine of an image does not have; of several words, streams and ranges the first. None
    /// where it has all.
    pub fn missing_in(&self, image: &Image) -> Option<Missing>
        ensures { result ≡ missing_in image.now self.now.form }
    {
        match &self.form {
            ClaimForm::Word { address, .. } => missing_word(image, *address),
            ClaimForm::Compared { address, other, .. } => match missing_word(image, *address) {
                Some(missing) => Some(missing),
                None => missing_word(image, *other),
            },
            ClaimForm::Streams { groups, .. } => missing_of_groups(image, groups),
        }
    }
}

/// Whether the word of a byte address is missing.
fn missing_word(image: &Image, address: u64) -> Option<Missing>
    ensures { result ≡ missing_word image.now address }
{
    if has_word(image, address) {
        None
    } else {
        Some(Missing::Word)
    }
}

/// What the first of some groups, of those that lack something, speaks of that an image does not have.
fn missing_of_groups(image: &Image, groups: &[StreamGroup]) -> Option<Missing>
    ensures { result ≡ missing_of_groups image.now groups.now }
{
    for group in groups {
        if let Some(missing) = missing_of_range(image, &group.streams, group.last) {
            return Some(missing);
        }
    }
    None
}

/// The first of some streams that an image does not have, else whether a place is past its program.
fn missing_of_range(image: &Image, streams: &[Step], last: u32) -> Option<Missing>
    ensures { result ≡ missing_of_range image.now streams.now last }
{
    if let Some(step) = first_missing(image, streams) {
        return Some(Missing::Stream(step));
    }
    if (last as usize) < image.program().len() {
        None
    } else {
        Some(Missing::Place)
    }
}

/// The first of some streams that an image does not have.
fn first_missing(image: &Image, streams: &[Step]) -> Option<Step>
    ensures { result ≡ find (λ t. not (has_stream image.now t)) streams.now }
{
    streams.iter().copied().find(
        |step: &Step| -> bool
            ensures { result ≡ not (has_stream image.entry.now step.now) }
        { !has_stream(image, *step) },
    )
}

/// Whether an image has the word of a byte address.
fn has_word(image: &Image, address: u64) -> bool
    ensures { result ≡ has_word image.now address }
{
    address % 8 == 0 && address / 8 < image.cells().len() as u64
}

/// Whether an image has the stream that a step names.
fn has_stream(image: &Image, step: Step) -> bool
    ensures { result ≡ has_stream image.now step }
{
    usize::from(step.p) < image.processors() && u16::from(step.s) < image.slim()
}
