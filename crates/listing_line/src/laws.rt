//! Each line of a listing is read back as what it was printed from. The functions are laws: there is nothing to run.

ghost use Rattle.listing_line.specs.Laws.{WordLinesReadBack, ProfileLinesReadBack, ProfileLinesTell, SlimLinesReadBack};
ghost use Rattle.listing_line.specs.Laws.{ChainLinesReadBack, RetryLinesReadBack, TrapLinesReadBack, EntryLinesReadBack};
ghost use Rattle.listing_line.specs.Laws.{FillLinesReadBack};

use insn_word::spelling_is_one_to_one;
use text_parts::printed_digits_read_back;

/// The law of program words: the line of a word in a profile has no label, is one line of ASCII and counts as a word of
/// the program. In a text of that profile it adds the instruction that the word spells, or the word itself where it
/// spells none; so it means that word and no other. There is nothing to run.
pub fn listed_words_are_read_back()
    ensures { WordLinesReadBack }
{
    spelling_is_one_to_one();
    printed_digits_read_back();
}

/// The law of directives: the line of each directive of a listing has no label, is one line of ASCII, counts as no
/// word of the program, and adds what it was printed from, in a text of any profile that has the directive. There is
/// nothing to run.
pub fn listed_directives_are_read_back()
    ensures profile { ProfileLinesReadBack }
    // The line of a profile says that profile.
    ensures tells { ProfileLinesTell }
    ensures slim { SlimLinesReadBack }
    ensures chain { ChainLinesReadBack }
    ensures retry { RetryLinesReadBack }
    ensures trap { TrapLinesReadBack }
    ensures entry { EntryLinesReadBack }
    ensures fill { FillLinesReadBack }
{
    printed_digits_read_back();
}
