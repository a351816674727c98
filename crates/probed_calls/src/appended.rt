//! Calls that append a piece to a text.
use crate::endings::Ended;
use crate::programs::{FIRST, first_entry};
use insn_word::Profile;
use listing_line::push_word_line;
use std::alloc::{AllocError, Global};
use stream_core::Outcome;
use text_parts::{
    push_five_digits, push_hexadecimal_8, push_hexadecimal_12, push_hexadecimal_16,
    push_hexadecimal_digit, push_right_aligned, push_two_digits,
};
use trace_text::{push_history_line, push_trace_line};

/// What is appended.
#[derive(Clone, Copy)]
pub(crate) enum Piece {
    TraceLine,
    HistoryLine,
    WordLine,
    Sixteen,
    Twelve,
    Eight,
    Digit,
    TwoDigits,
    FiveDigits,
    RightAligned,
}

/// A trace line, and its text.
pub(crate) const TRACE_LINE: [(Piece, &str); 1] = [(
    Piece::TraceLine,
    "      1   0   0 00000000 DONE\n",
)];

/// A history line, and its text.
pub(crate) const HISTORY_LINE: [(Piece, &str); 1] = [(
    Piece::HistoryLine,
    "      1   0   0 FADD   0000000000000000 1 0000000000000003 0 DONE 0000000000000005\n",
)];

/// A line of a listing, and its text.
pub(crate) const WORD_LINE: [(Piece, &str); 1] = [(
    Piece::WordLine,
    "LIT r1, 3 ; 00000 8010000000000003\n",
)];

/// Hexadecimal digits of each width, and their texts.
pub(crate) const HEXADECIMALS: [(Piece, &str); 4] = [
    (Piece::Sixteen, "0000000000000ABC"),
    (Piece::Twelve, "000000000ABC"),
    (Piece::Eight, "00000ABC"),
    (Piece::Digit, "A"),
];

/// Decimal digits of each form, and their texts.
pub(crate) const DECIMALS: [(Piece, &str); 3] = [
    (Piece::TwoDigits, "07"),
    (Piece::FiveDigits, "65535"),
    (Piece::RightAligned, "   1234"),
];

fn push(text: &mut String, piece: Piece) -> Result<(), AllocError> {
    match piece {
        Piece::TraceLine => push_trace_line(text, 1, FIRST, 0, Outcome::Done),
        Piece::HistoryLine => push_history_line(text, 1, &first_entry()),
        Piece::WordLine => push_word_line(text, Profile::One, 0, 0x8010_0000_0000_0003),
        Piece::Sixteen => push_hexadecimal_16(text, 0xABC),
        Piece::Twelve => push_hexadecimal_12(text, 0xABC),
        Piece::Eight => push_hexadecimal_8(text, 0xABC),
        Piece::Digit => push_hexadecimal_digit(text, 0xA),
        Piece::TwoDigits => push_two_digits(text, 7),
        Piece::FiveDigits => push_five_digits(text, 65_535),
        Piece::RightAligned => push_right_aligned::<7>(text, 1_234),
    }
}

/// How a call ends that appends to an empty text.
fn of_piece(alloc: Global, piece: Piece, wanted: &str) -> Ended {
    let mut text = String::new(alloc);
    match push(&mut text, piece) {
        Ok(()) => Ended::answered(text.as_str() == wanted),
        Err(AllocError) => Ended::refused(text.is_empty()),
    }
}

pub(crate) fn of_pieces(alloc: Global, pieces: &[(Piece, &str)]) -> Ended {
    let mut ended = Ended::Done;
    for (piece, wanted) in pieces {
        ended = ended.and(of_piece(alloc, *piece, wanted));
    }
    ended
}
