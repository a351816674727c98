//! Files of expectations, read for a program.

ghost use Rattle.std.specs.Prelude.{◌≡◌, Ok, Err, IfOk, IfErr};
ghost use Rattle.expectation_files.specs.Files.{file_said};
ghost use Rattle.expectation_files.specs.Seen.{names_in, requirements_seen};
ghost use Rattle.expectation_files.specs.declared.faults.FileFault.TheVariants as file;

use crate::addresses::KnownNames;
use crate::faults::FileFault;
use crate::lines::read_line_after;
use crate::requirements::Requirements;
use image_file::Image;
use std::alloc::Global;
use text_parts::cut;

/// What a text requires of a program with these names and this image: all that its lines say, in their order.
///
/// The fault is that of the least line that has one; a text that says nothing has the fault `Empty`. Refused memory may come
/// in place of these.
pub fn read_requirements(
    alloc: Global,
    names: KnownNames<'_, '_, '_>,
    image: &Image,
    text: &[u8],
) -> Result<Requirements, FileFault>
    ensures means { IfOk result (λ r. file_said (names_in names.entry) image.now text.now ≡ Ok (requirements_seen r)) }
    ensures fault { IfErr result (λ f. ¬ (f ≡ file.NoMemory)
        → file_said (names_in names.entry) image.now text.now ≡ Err f) }
{
    let mut found = Requirements::none(alloc);
    let mut has_points = false;
    let mut number = 0;
    let mut rest = Some(text);
    while let Some(bytes) = rest {
        let (line, following) = cut(bytes, b'\n');
        number += 1;
        match read_line_after(alloc, names, image, has_points, line) {
            Ok(meaning) => {
                has_points = meaning.has_points_after(has_points);
                found.add(alloc, number, line, meaning)?
            }
            Err(unread) => return Err(unread.on_line(number)),
        }
        rest = following;
    }
    if found.is_nothing() {
        return Err(FileFault::Empty);
    }
    Ok(found)
}
