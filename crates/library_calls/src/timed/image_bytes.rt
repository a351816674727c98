//! The largest image, to bytes and back.
use image_file::{Image, MAX_PROCESSORS, MAX_PROGRAM_WORDS, read_image, write_image};
use std::alloc::Global;
use tag_memory::{MAX_WORDS, Tags, Word};

/// Every number of it is at its limit.
fn largest_image(alloc: Global) -> Option<Image> {
    let Ok(mut entries) = vec![in alloc; 65_535; MAX_PROCESSORS] else {
        return None;
    };
    let Ok(mut program) = vec![in alloc; 0x8010_0000_0000_0005; MAX_PROGRAM_WORDS] else {
        return None;
    };
    let Ok(mut cells) = vec![in alloc; Word::new(7, Tags::FULL); MAX_WORDS] else {
        return None;
    };
    match Image::from_parts(&mut entries, 128, 0, u32::MAX, &mut program, &mut cells) {
        Ok(image) => Some(image),
        Err(_) => None,
    }
}

fn is_read(alloc: Global, image: &Image, bytes: &[u8]) -> bool {
    match read_image(alloc, bytes) {
        Ok(read) => read == *image,
        Err(_) => false,
    }
}

fn is_written(alloc: Global, image: &Image) -> bool {
    write_image(alloc, image).is_ok()
}

/// Reads, or else writes, an image so many times, and gives the number of its bytes; none where it is read as another.
fn rounds_of(alloc: Global, image: &Image, reads: bool, rounds: u32) -> Option<usize> {
    let Ok(bytes) = write_image(alloc, image) else {
        return None;
    };
    for _ in 0..rounds {
        let is_done = if reads {
            is_read(alloc, image, &bytes)
        } else {
            is_written(alloc, image)
        };
        if !is_done {
            return None;
        }
    }
    Some(bytes.len())
}

/// The same of the largest image.
pub(crate) fn image_rounds(alloc: Global, reads: bool, rounds: u32) -> Option<usize> {
    match largest_image(alloc) {
        Some(image) => rounds_of(alloc, &image, reads, rounds),
        None => None,
    }
}
