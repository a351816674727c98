//! An image made of its parts.

ghost use Rattle.std.specs.Prelude.{◌≡◌, ◌↔◌, [], MatchResult, IsOk, OnOk, OnErr};
ghost use Rattle.tag_memory.specs.Storage.{default_chain_limit};
ghost use Rattle.image_file.specs.ImageValue.{image_of, image_of_2, image_in, IsWithin};
ghost use Rattle.image_file.specs.Parts.{count_fault, entry_fault, parts_fault};

use crate::{CountField, Image, ImageFault};
use insn_word::Profile;
use std::mem;
use tag_memory::{DEFAULT_CHAIN_LIMIT, MAX_CHAIN_LIMIT, MAX_WORDS, Word};

/// The most processors of an image.
pub const MAX_PROCESSORS: usize = 16;

const _: () = prove!(MAX_PROCESSORS == 16);

const MAX_SLIM: usize = 128;

/// The most program words of an image.
pub const MAX_PROGRAM_WORDS: usize = 65_536;

const _: () = prove!(MAX_PROGRAM_WORDS == 65_536);

/// The first number that is out of its limits.
pub(crate) fn count_fault(
    processors: usize,
    slim: usize,
    chain: usize,
    words: usize,
    cells: usize,
) -> Option<CountField>
    ensures { result ≡ count_fault processors slim chain words cells }
{
    if processors < 1 || processors > MAX_PROCESSORS {
        Some(CountField::Processors)
    } else if slim < 1 || slim > MAX_SLIM {
        Some(CountField::Slim)
    } else if chain > usize::from(MAX_CHAIN_LIMIT) {
        Some(CountField::Chain)
    } else if words < 1 || words > MAX_PROGRAM_WORDS {
        Some(CountField::Program)
    } else if cells < 1 || cells > MAX_WORDS {
        Some(CountField::Cells)
    } else {
        None
    }
}

/// The least processor whose entry is not below the number of program words.
pub(crate) fn entry_fault(words: usize, entries: &[u32]) -> Option<usize>
    ensures { result ≡ entry_fault words entries.now }
{
    entries.iter().position(|entry| *entry as usize >= words)
}

/// Takes what the vector holds and leaves it empty.
fn taken<T>(vector: &mut Vec<T>) -> Vec<T>
    ensures taken { result.items ≡ vector.old.items }
    ensures left { vector.new.items ≡ [] }
{
    let empty = Vec::new(*vector.allocator());
    mem::replace(vector, empty)
}

impl Image {
    /// The image of Profile 1 of these parts, whose vectors it takes and leaves empty. Its chain limit is 8. It is
    /// never refused for want of memory.
    ///
    /// Where they are no image the vectors stay as they are, and the fault is `Count` with the first field that is
    /// out of its limits, else `Entry` with the least processor whose entry is not below the number of program words.
    pub fn from_parts(
        entries: &mut Vec<u32>,
        slim: u16,
        retry_limit: u32,
        trap_entry: u32,
        program: &mut Vec<u64>,
        cells: &mut Vec<Word>,
    ) -> Result<Image, ImageFault>
        // Ok exactly within the limits, and then the image has the arguments.
        ensures within { IsOk result
            ↔ IsWithin (image_of entries.old.items slim retry_limit trap_entry program.old.items cells.old.items) }
        ensures is { let parts =
            image_of entries.old.items slim retry_limit trap_entry program.old.items cells.old.items in
            MatchResult result (λ i. i ≡ parts) (λ fault. parts_fault parts ≡ Some fault) }

        // What becomes of the vectors.
        ensures ok { OnOk result ((entries.new.items ≡ []) × (program.new.items ≡ []) × (cells.new.items ≡ [])) }
        ensures err { OnErr result
            ((entries.new ≡ entries.old) × (program.new ≡ program.old) × (cells.new ≡ cells.old)) }
    {
        Image::in_profile(
            Profile::One,
            DEFAULT_CHAIN_LIMIT,
            entries,
            slim,
            retry_limit,
            trap_entry,
            program,
            cells,
        )
    }

    /// The image of Profile 2 with this chain limit, 0 to 64, of these parts, whose vectors it takes and leaves
    /// empty. It is never refused for want of memory.
    ///
    /// Where they are no image the vectors stay as they are, and the fault is that of [`Image::from_parts`], with
    /// `Count` of `Chain` for a chain limit above 64.
    pub fn from_parts_2(
        chain_limit: u8,
        entries: &mut Vec<u32>,
        slim: u16,
        retry_limit: u32,
        trap_entry: u32,
        program: &mut Vec<u64>,
        cells: &mut Vec<Word>,
    ) -> Result<Image, ImageFault>
        // Ok exactly within the limits, and then the image has the arguments.
        ensures within { IsOk result
            ↔ IsWithin
            (image_of_2 chain_limit entries.old.items slim retry_limit trap_entry program.old.items cells.old.items) }
        ensures is { let parts =
            image_of_2 chain_limit entries.old.items slim retry_limit trap_entry program.old.items cells.old.items in
            MatchResult result (λ i. i ≡ parts) (λ fault. parts_fault parts ≡ Some fault) }

        // What becomes of the vectors.
        ensures ok { OnOk result ((entries.new.items ≡ []) × (program.new.items ≡ []) × (cells.new.items ≡ [])) }
        ensures err { OnErr result
            ((entries.new ≡ entries.old) × (program.new ≡ program.old) × (cells.new ≡ cells.old)) }
    {
        Image::in_profile(
            Profile::Two,
            chain_limit,
            entries,
            slim,
            retry_limit,
            trap_entry,
            program,
            cells,
        )
    }

    /// The image of a profile, with a chain limit, which is 8 in Profile 1.
    fn in_profile(
        profile: Profile,
        chain: u8,
        entries: &mut Vec<u32>,
        slim: u16,
        retry_limit: u32,
        trap_entry: u32,
        program: &mut Vec<u64>,
        cells: &mut Vec<Word>,
    ) -> Result<Image, ImageFault>
        requires { profile ≡ Profile.One → chain ≡ default_chain_limit }
        ensures within { IsOk result
            ↔ IsWithin
            (image_in profile chain entries.old.items slim retry_limit trap_entry program.old.items
            cells.old.items) }
        ensures is { let parts =
            image_in profile chain entries.old.items slim retry_limit trap_entry program.old.items
            cells.old.items in
            MatchResult result (λ i. i ≡ parts) (λ fault. parts_fault parts ≡ Some fault) }
        ensures ok { OnOk result ((entries.new.items ≡ []) × (program.new.items ≡ []) × (cells.new.items ≡ [])) }
        ensures err { OnErr result
            ((entries.new ≡ entries.old) × (program.new ≡ program.old) × (cells.new ≡ cells.old)) }
    {
        if let Some(field) = count_fault(
            entries.len(),
            usize::from(slim),
            usize::from(chain),
            program.len(),
            cells.len(),
        ) {
            return Err(ImageFault::Count(field));
        }
        if let Some(processor) = entry_fault(program.len(), entries) {
            return Err(ImageFault::Entry(processor as u8));
        }
        Ok(Image {
            profile,
            slim,
            chain_limit: chain,
            retry_limit,
            trap_entry,
            entries: taken(entries),
            program: taken(program),
            cells: taken(cells),
        })
    }
}
