//! Numbers of 32 bits.

/// A count as a number of 32 bits; the greatest one if it is greater.
pub(crate) fn number_of(count: usize) -> u32 {
    u32::try_from(count).unwrap_or(u32::MAX)
}
