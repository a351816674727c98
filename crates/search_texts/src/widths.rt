//! How wide a column of counts is.

/// The most decimal digits of a count.
const MOST_DIGITS: usize = 20;

/// How many digits a number has.
pub(crate) fn digits_of(number: usize) -> usize {
    let mut digits: usize = 1;
    let mut rest = number / 10;
    for _ in 0..MOST_DIGITS {
        if rest > 0 {
            digits = digits.saturating_add(1);
            rest /= 10;
        }
    }
    digits
}
