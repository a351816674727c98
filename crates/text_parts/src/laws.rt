//! What is printed is read back. The functions are laws: there is nothing to run.

ghost use Rattle.text_parts.specs.Laws.{HexadecimalReadsBack, FitsWord, FixedWidth, DigitsReadBack};
ghost use Rattle.text_parts.specs.Laws.{DecimalReadsBack, ZerosInFront, AlignedReadsBack, AlignedWidth};

/// The law of printing and reading: every word is read back from its printed digits,
/// and no text is read as more than 64 bits. There is nothing to run.
pub fn printed_digits_read_back()
    ensures reads_back { HexadecimalReadsBack }
    ensures fits { FitsWord }
{}

/// The law of fixed widths: what is printed of a number has the width's digits and no others, and is read back as
/// the number's rest by that power of the base, which is the number itself where the width suffices. There is nothing
/// to run.
pub fn fixed_widths_read_back()
    ensures width { FixedWidth }
    ensures reads_back { DigitsReadBack }
{}

/// The law of decimal numbers: what is printed is read back, whether plain or, the blanks aside, in a column; decimal
/// digits of a fixed width are the plain ones with zeros in front; and a number that a column suffices for fills it.
/// There is nothing to run.
pub fn decimal_numbers_read_back()
    ensures plain { DecimalReadsBack }
    ensures zeros { ZerosInFront }
    ensures aligned { AlignedReadsBack }
    ensures width { AlignedWidth }
{}
