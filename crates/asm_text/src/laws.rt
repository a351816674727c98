//! Laws of listings and of runs of cells. The functions are laws: there is nothing to run.

ghost use Rattle.asm_text.specs.Laws.{ListingsReadBack, OneMeaning, RunsAreCells, RunsHaveCells, RunsAreMaximal};

use insn_word::spelling_is_one_to_one;
use listing_line::{listed_directives_are_read_back, listed_words_are_read_back};

/// The law of listings: the listing of an image value whose numbers fit their fields means that image, and no text
/// means two images. There is nothing to run.
pub fn listings_are_read_back()
    ensures reads_back { ListingsReadBack }
    ensures one_meaning { OneMeaning }
{
    spelling_is_one_to_one();
    listed_words_are_read_back();
    listed_directives_are_read_back();
}

/// The law of runs: the runs of cells, one after another, are those cells; no run is empty, and no two that follow
/// each other have equal cells. There is nothing to run.
pub fn cells_are_their_runs()
    ensures cells { RunsAreCells }
    ensures some { RunsHaveCells }
    ensures maximal { RunsAreMaximal }
{}
