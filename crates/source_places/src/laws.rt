//! The laws of program lines and of data lines. The functions are laws: there is nothing to run.

ghost use Rattle.source_places.specs.DataCells.{DataLinesGiveTheCells};
ghost use Rattle.source_places.specs.Laws.{WordsStandOnTheirLines};

/// The law of program lines: a line is that of word k exactly where it is a program word and has k of them before it,
/// which is the value that the assembler would give a label on it. There is nothing to run.
pub fn program_words_stand_on_their_lines()
    ensures { WordsStandOnTheirLines }
{}

/// The law of data lines: in a text that means an image, each of `SourcePlaces::data_lines` gives the cells of the image
/// from its first data word on, as many as it adds, and with the value and the tags that the assembler reads on that line.
/// Together they give all cells. There is nothing to run.
pub fn data_lines_give_the_cells()
    ensures { DataLinesGiveTheCells }
{}
