//! What texts are made of: numbers, printed in a fixed width or in columns and read back; the parts before and after a
//! byte; lines; runs of equal things.
#![tactic(auto)]

mod appended;
mod cutting;
mod digits;
mod laws;
mod lines;
mod numbers;
mod reading;
mod runs;
mod short_lines;

pub use appended::{
    push_five_digits, push_hexadecimal_8, push_hexadecimal_12, push_hexadecimal_16,
    push_hexadecimal_digit, push_right_aligned, push_two_digits,
};
pub use cutting::{cut, find_either};
pub use laws::{decimal_numbers_read_back, fixed_widths_read_back, printed_digits_read_back};
pub use lines::split_line;
pub use numbers::{Base, Number, read_digits, read_number};
pub use reading::read_hexadecimal;
pub use runs::run_length;
pub use short_lines::{
    add_decimal, add_five_digits, add_hexadecimal, add_right_aligned_3, add_right_aligned_7,
    add_two_digits,
};
