//! The programs of the tests.
use asm_text::assemble;
use image_file::Image;
use std::alloc::Global;

/// A load of an empty word that may be tried twice again, and its handler.
pub(crate) const WAITING: &str =
    ".slim 1\n.retry 2\n.trap 2\n.entry 0\nLOAD.S r3, r2, 1\nQUIT\nXGET r4\nQUIT\n\
    .data 0\n.data 0, 0\n";

/// The image of a source text; none where it has a fault.
pub(crate) fn image_of(alloc: Global, source: &str) -> Option<Image> {
    assemble(alloc, source.as_bytes()).ok()
}
