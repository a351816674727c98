//! An image with other cells.

ghost use Rattle.std.specs.Prelude.{◌≡◌, IfOk, IsTrue, Some, find};
ghost use Rattle.case_cells.specs.NamedWords.{has_word, cell_of_places, cells_by_name, cells_by_position, given_cells, places_seen};

use crate::named_words::WordPlaces;
use image_file::{Image, ImageFault};
use insn_word::Profile;
use std::alloc::{AllocError, Global};
use tag_memory::Word;

/// The image that a case with these cells makes of another one. Its profile and limits, its entries and its program are
/// the other's. At each of the places its cells are those of the case, and else the other's own. Without places they
/// are the case's, from the first word on, and after these the further ones that the other has.
pub fn image_with_cells(
    alloc: Global,
    image: &Image,
    places: &Option<Vec<WordPlaces>>,
    given: &Image,
) -> Result<Image, AllocError>
    ensures { IfOk result (λ i. i ≡ record image.now
        { cells = given_cells (places_seen places.now) given.now.cells image.now.cells }) }
{
    let mut entries = entries_of(alloc, image)?;
    let mut program = Vec::from_slice(alloc, image.program())?;
    let mut cells = match places {
        Some(places) => cells_by_name(alloc, places, given.cells(), image.cells())?,
        None => cells_by_position(alloc, given.cells(), image.cells())?,
    };
    match image_of_parts(image, &mut entries, &mut program, &mut cells) {
        Ok(image) => Ok(image),
        Err(_) => Err(AllocError),
    }
}

/// The cells of a case, and after them the further ones that a submission has.
fn cells_by_position(alloc: Global, given: &[Word], own: &[Word]) -> Result<Vec<Word>, AllocError>
    ensures { IfOk result (λ v. v.items ≡ cells_by_position given.now own.now) }
{
    let mut cells = Vec::from_slice(alloc, given)?;
    if own.len() > given.len() {
        cells.extend_from_slice(&own[given.len()..])?;
    }
    Ok(cells)
}

/// The cells of a submission, with those of a case at these places.
fn cells_by_name(
    alloc: Global,
    places: &[WordPlaces],
    given: &[Word],
    own: &[Word],
) -> Result<Vec<Word>, AllocError>
    ensures { IfOk result (λ v. v.items ≡ cells_by_name places.now given.now 0 own.now) }
{
    let mut cells = Vec::new(alloc);
    for word in 0..own.len() {
        cells.push(cell_at(places, given, word, own[word]))?;
    }
    Ok(cells)
}

/// The cell of a word of a submission: that of a case, where one of the places has this word, and else its own.
fn cell_at(places: &[WordPlaces], given: &[Word], word: usize, own: Word) -> Word
    ensures { result ≡ cell_of_places given.now word own (find (has_word word) places.now) }
{
    for place in places {
        if has_word(place, word) {
            return cell_of_place(place, given, word, own);
        }
    }
    own
}

/// The cell of a word that is at this place: that of a case, where it has one there.
fn cell_of_place(place: &WordPlaces, given: &[Word], word: usize, own: Word) -> Word
    requires { IsTrue (has_word word place.now) }
    ensures { result ≡ cell_of_places given.now word own (Some place.now) }
{
    let behind = word - place.own;
    match place.given.checked_add(behind) {
        Some(at) => match given.get(at) {
            Some(cell) => *cell,
            None => own,
        },
        None => own,
    }
}

/// Whether a word of a submission is at a place.
fn has_word(place: &WordPlaces, word: usize) -> bool
    ensures { result ≡ has_word word place.now }
{
    place.own <= word && word - place.own < place.count
}

/// The image of these parts that has the profile and the limits of another one.
fn image_of_parts(
    image: &Image,
    entries: &mut Vec<u32>,
    program: &mut Vec<u64>,
    cells: &mut Vec<Word>,
) -> Result<Image, ImageFault>
    ensures { IfOk result (λ i. i ≡ record image.now
        { entries = entries.old.items; program = program.old.items; cells = cells.old.items }) }
{
    let (slim, retry_limit, trap_entry) = (image.slim(), image.retry_limit(), image.trap_entry());
    // It says that the limit of Profile 1 is always the same.
    let chain_limit = image.chain_limit();
    match image.profile() {
        Profile::One => {
            Image::from_parts(entries, slim, retry_limit, trap_entry, program, cells)
        }
        Profile::Two => Image::from_parts_2(
            chain_limit,
            entries,
            slim,
            retry_limit,
            trap_entry,
            program,
            cells,
        ),
    }
}

/// The entries of an image's processors.
fn entries_of(alloc: Global, image: &Image) -> Result<Vec<u32>, AllocError>
    ensures { IfOk result (λ v. v.items ≡ image.now.entries) }
{
    let mut entries = Vec::new(alloc);
    for processor in 0..image.processors() {
        if let Some(entry) = image.entry(processor) {
            entries.push(entry)?;
        }
    }
    Ok(entries)
}
