//! A program with the words of a case.

ghost use Rattle.std.specs.Prelude.{◌≡◌, IfOk};
ghost use Rattle.case_cells.specs.NamedWords.{given_cells, places_by_name};

use case_cells::{image_with_cells, places_by_name};
use command_parts::Program;
use image_file::Image;
use std::alloc::{AllocError, Global};

/// The image of a program with the words of a case, which this text gives and these cells have. If each line of the text has
/// a name, and the program has words of each of these names, these words alone are replaced. Else the case's words stand from
/// the first word on, and what the program has more stays after them.
pub fn image_with_words(
    alloc: Global,
    program: &Program,
    given: &[u8],
    cells: &Image,
) -> Result<Image, AllocError>
    ensures { IfOk result (λ i. i ≡ record program.now.image {
      cells = given_cells (places_by_name given.now program.now.text.items)
          cells.now.cells program.now.image.cells;
    }) }
{
    let places = places_by_name(alloc, given, &program.text)?;
    let image = image_with_cells(alloc, &program.image, &places, cells)?;
    Ok(image)
}
