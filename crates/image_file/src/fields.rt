//! The numbers of an image file, each with its highest byte first.

ghost use Rattle.std.specs.Prelude.{◌≡◌, ◌≤◌, ◌++◌, length, drop, OnOk};
ghost use Rattle.image_file.specs.Fields.{number_bytes, number_of_bytes};

use byteorder::{BigEndian, ByteOrder};
use std::alloc::AllocError;

/// The bytes from a place on.
pub(crate) fn from_place(bytes: &[u8], place: usize) -> &[u8]
    requires { place ≤ length bytes.now }
    ensures { result.now ≡ drop place bytes.now }
{
    bytes.split_at(place).1
}

/// The number in the first byte.
#[tactic(auto, unfolding(crate::specs::Fields::number_of_bytes))]
pub(crate) fn u8_of(bytes: &[u8]) -> u8
    requires { 1 ≤ length bytes.now }
    ensures { result ≡ number_of_bytes 1 bytes.now }
{
    bytes[0]
}

/// The number in the first two bytes.
#[tactic(auto, unfolding(crate::specs::Fields::number_of_bytes))]
pub(crate) fn u16_of(bytes: &[u8]) -> u16
    requires { 2 ≤ length bytes.now }
    ensures { result ≡ number_of_bytes 2 bytes.now }
{
    BigEndian::read_u16(bytes)
}

/// The number in the first four bytes.
#[tactic(auto, unfolding(crate::specs::Fields::number_of_bytes))]
pub(crate) fn u32_of(bytes: &[u8]) -> u32
    requires { 4 ≤ length bytes.now }
    ensures { result ≡ number_of_bytes 4 bytes.now }
{
    BigEndian::read_u32(bytes)
}

/// The number in the first eight bytes.
#[tactic(auto, unfolding(crate::specs::Fields::number_of_bytes))]
pub(crate) fn u64_of(bytes: &[u8]) -> u64
    requires { 8 ≤ length bytes.now }
    ensures { result ≡ number_of_bytes 8 bytes.now }
{
    BigEndian::read_u64(bytes)
}

/// Adds a number of one byte.
#[tactic(auto, unfolding(crate::specs::Fields::number_bytes))]
pub(crate) fn put_u8(out: &mut Vec<u8>, number: u8) -> Result<(), AllocError>
    ensures { OnOk result (out.new.items ≡ out.old.items ++ number_bytes 1 number) }
{
    out.push(number)?;
    Ok(())
}

/// Adds a number of two bytes.
#[tactic(auto, unfolding(crate::specs::Fields::number_bytes))]
pub(crate) fn put_u16(out: &mut Vec<u8>, number: u16) -> Result<(), AllocError>
    ensures { OnOk result (out.new.items ≡ out.old.items ++ number_bytes 2 number) }
{
    let mut bytes = [0; 2];
    BigEndian::write_u16(&mut bytes, number);
    out.extend_from_slice(&bytes)
}

/// Adds a number of four bytes.
#[tactic(auto, unfolding(crate::specs::Fields::number_bytes))]
pub(crate) fn put_u32(out: &mut Vec<u8>, number: u32) -> Result<(), AllocError>
    ensures { OnOk result (out.new.items ≡ out.old.items ++ number_bytes 4 number) }
{
    let mut bytes = [0; 4];
    BigEndian::write_u32(&mut bytes, number);
    out.extend_from_slice(&bytes)
}

/// Adds a number of eight bytes.
#[tactic(auto, unfolding(crate::specs::Fields::number_bytes))]
pub(crate) fn put_u64(out: &mut Vec<u8>, number: u64) -> Result<(), AllocError>
    ensures { OnOk result (out.new.items ≡ out.old.items ++ number_bytes 8 number) }
{
    let mut bytes = [0; 8];
    BigEndian::write_u64(&mut bytes, number);
    out.extend_from_slice(&bytes)
}
