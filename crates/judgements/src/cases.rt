//! What submissions are judged by.

ghost use Rattle.std.specs.Prelude.{◌≡◌, IfOk, unwrap_or};
ghost use Rattle.judgements.specs.Cases.{given_image};

use case_cells::{image_with_cells, places_by_name};
use image_file::Image;
use lab_requests::Bounds;
use std::alloc::{AllocError, Global};

/// What submissions are judged by: cells, and what the end of a run with them has to be ("Cases", docs/FORMATS.md).
#[derive(Drop)]
pub struct Case {
    /// Its name; None where it is the only one.
    pub name: Option<String>,
    /// The path of the file of expectations.
    pub path: String,
    /// Its text.
    pub expected: Vec<u8>,
    /// An image with the cells that replace words of a submission.
    pub cells: Option<Image>,
    /// The text of these cells; empty where there are none.
    pub given: Vec<u8>,
}

/// A submission: a program.
#[derive(Clone, Copy)]
pub struct Submission<'a> {
    /// The image, with the cells of its own.
    pub image: &'a Image,
    /// The text, which names its places.
    pub text: &'a [u8],
}

/// How submissions are judged.
#[derive(Clone, Copy, Debug)]
pub struct AskedJudging {
    /// Every schedule before seeds, and how far they are looked for, of each case.
    pub explored: Option<Bounds>,
    /// Whether seeds come before every schedule, and the search is made again with more megabytes while these end it.
    pub is_thorough: bool,
    /// Whether a submission that lacks a name of a case's words is refused.
    pub needs_names: bool,
    /// How many seeds, from 0 on.
    pub seeds: usize,
    /// The most steps of the run of each.
    pub most: usize,
    /// Whether the outcomes of all seeds are counted too.
    pub counts_all: bool,
    /// Whether the seeds of a case are shared among the processors.
    pub is_spread: bool,
}

/// The program that a case makes of a submission of this image and text, by the case's cells; None where the case has none.
/// If each line of the cells has a name, and the text gives the words of each name, these words alone are replaced. Else the
/// cells replace the submission's from the first on, and what it has more stays after them.
pub fn image_by(
    alloc: Global,
    image: &Image,
    text: &[u8],
    case: &Case,
) -> Result<Option<Image>, AllocError>
    ensures { IfOk result (λ given. given ≡ given_image image.now text.now case.now) }
{
    match &case.cells {
        Some(cells) => {
            let places = places_by_name(alloc, &case.given, text)?;
            let image = image_with_cells(alloc, image, &places, cells)?;
            Ok(Some(image))
        }
        None => Ok(None),
    }
}

/// The image that is given, or else its own.
pub(crate) fn image_or<'a>(given: &'a Option<Image>, own: &'a Image) -> &'a Image
    ensures { result.now ≡ unwrap_or given.entry.now own.entry.now }
{
    match given {
        Some(image) => image,
        None => own,
    }
}
