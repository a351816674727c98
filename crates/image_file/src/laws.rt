//! Laws of the bytes of images.

ghost use Rattle.image_file.specs.Laws.{ImageOrFault, OneImage, OneSpelling};

/// The laws of image files: each list of bytes stands for one image or has one first fault, and each image has one
/// spelling. It does nothing.
pub fn image_bytes_laws()
    ensures image_or_fault { ImageOrFault }
    ensures one_image { OneImage }
    ensures one_spelling { OneSpelling }
{}
