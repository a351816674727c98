//! How numbers are shown.

use lab_requests::Shown;
use lab_texts::NumberStyle;

/// How numbers are shown.
pub fn style_of(shown: Shown) -> NumberStyle {
    if shown.hexadecimal {
        NumberStyle::Hexadecimal
    } else {
        NumberStyle::Decimal
    }
}
