//! Checksums and their digits.

ghost use Rattle.std.specs.Prelude.{◌≡◌};
ghost use Rattle.sha2.specs.Sha256.{sha256};

use class_results::Checksum;
use sha2::{Digest, Sha256};
use std::alloc::{AllocError, Global};

/// How many bytes a checksum has.
const BYTES: usize = 32;

/// The SHA-256 of these bytes.
pub fn checksum_of(bytes: &[u8]) -> Checksum
    ensures { result ≡ sha256 bytes.now }
{
    let mut hasher = Sha256::new();
    hasher.update(bytes);
    hasher.finalize()
}

/// The 64 hexadecimal digits of a checksum.
pub fn hex_of(alloc: Global, checksum: &Checksum) -> Result<String, AllocError> {
    let mut digits = String::new(alloc);
    for byte in checksum.iter() {
        write!(digits, "{byte:02x}")?;
    }
    Ok(digits)
}

/// The checksum of these digits; None where they are none.
pub(crate) fn checksum_in(digits: &str) -> Option<Checksum> {
    if digits.len() != 64 {
        return None;
    }
    let mut checksum = [0u8; BYTES];
    for (byte, pair) in checksum.iter_mut().zip(digits.as_bytes().chunks(2)) {
        *byte = byte_of(pair)?;
    }
    Some(checksum)
}

/// The byte of two digits.
fn byte_of(pair: &[u8]) -> Option<u8> {
    let high = digit_of(*pair.first()?)?;
    let low = digit_of(*pair.get(1)?)?;
    Some(high.wrapping_mul(16).wrapping_add(low))
}

/// The value of a digit, which is a small letter where it is a letter.
fn digit_of(digit: u8) -> Option<u8> {
    match digit {
        b'0'..=b'9' => Some(digit - b'0'),
        b'a'..=b'f' => Some(digit - b'a' + 10),
        _ => None,
    }
}
