//! The faults of what follows a header.

ghost use Rattle.std.specs.Prelude.{◌≡◌, ◌*◌, ◌<◌, ◌≤◌, length, IfSome};
ghost use Rattle.image_file.specs.Header.{header_at};
ghost use Rattle.image_file.specs.ImageValue.{most_processors};
ghost use Rattle.image_file.specs.Parts.{entry_fault};
ghost use Rattle.image_file.specs.Reading.{body_fault, entries_from, tags_from, tag_fault};

use crate::ImageFault;
use crate::fields::{from_place, u8_of, u32_of};
use crate::header::Header;

/// The least of so many entries that is not below the number of program words.
fn entry_fault(words: u32, count: usize, bytes: &[u8]) -> Option<usize>
    requires { 4 * count ≤ length bytes.now }
    ensures is { result ≡ entry_fault words (entries_from count bytes.now) }
    ensures below { IfSome result (λ processor. processor < count) }
{
    let mut rest = bytes;
    for processor in 0..count {
        if u32_of(rest) >= words {
            return Some(processor);
        }
        rest = from_place(rest, 4);
    }
    None
}

/// The least of so many cells whose tag byte is above 15.
fn tag_fault(count: usize, bytes: &[u8]) -> Option<usize>
    requires { 9 * count ≤ length bytes.now }
    ensures is { result ≡ tag_fault (tags_from count bytes.now) }
    ensures below { IfSome result (λ cell. cell < count) }
{
    let mut rest = bytes;
    for cell in 0..count {
        if u8_of(from_place(rest, 8)) > 15 {
            return Some(cell);
        }
        rest = from_place(rest, 9);
    }
    None
}

/// The first of `Short`, `Entry`, `TagByte` and `Trailing` that bytes with this header have.
#[tactic(auto, unfolding(crate::specs::Reading::body_fault))]
pub(crate) fn body_fault(header: Header, bytes: &[u8]) -> Option<ImageFault>
    requires header { header ≡ header_at bytes.now }
    requires few { header.processors ≤ most_processors }
    ensures { result ≡ body_fault bytes.now }
{
    if bytes.len() < header.file_length() {
        return Some(ImageFault::Short);
    }
    let entries = from_place(bytes, header.entries_place());
    if let Some(processor) = entry_fault(header.words, usize::from(header.processors), entries) {
        return Some(ImageFault::Entry(processor as u8));
    }
    let cells = from_place(bytes, header.cells_place());
    if let Some(cell) = tag_fault(header.cells as usize, cells) {
        return Some(ImageFault::TagByte(cell as u32));
    }
    if bytes.len() > header.file_length() {
        return Some(ImageFault::Trailing);
    }
    None
}
