//! The header of an image file, its first 26 or 28 bytes ("Image files", docs/FORMATS.md).

ghost use Rattle.std.specs.Prelude.{◌≡◌, ◌+◌, ◌*◌, ◌≤◌, length, MatchResult, Some, None};
ghost use Rattle.image_file.specs.Versions.{header_length};
ghost use Rattle.image_file.specs.Header.{header_at};
ghost use Rattle.image_file.specs.Parts.{count_fault};
ghost use Rattle.image_file.specs.Reading.{profile_at, chain_limit_in, front_fault, header_fault};

use crate::fields::{from_place, u16_of, u32_of};
use crate::parts::count_fault;
use crate::versions::{CHAIN_PLACE, header_length, profile_of_version, tail_place};
use crate::{CountField, ImageFault};
use insn_word::Profile;
use tag_memory::DEFAULT_CHAIN_LIMIT;

/// The first four bytes as a number: the text `MTAP`.
pub(crate) const MAGIC: u32 = 0x4D54_4150;

/// What a header says, in the widths of its fields.
#[derive(Clone, Copy)]
pub(crate) struct Header {
    pub(crate) profile: Profile,
    pub(crate) processors: u16,
    pub(crate) slim: u16,
    pub(crate) chain_limit: u16,
    pub(crate) retry_limit: u32,
    pub(crate) trap_entry: u32,
    pub(crate) words: u32,
    pub(crate) cells: u32,
}

/// The profile of the version that the bytes say; else the first of `Short`, `Magic`, `Version` and `Short` that they
/// have. Where there is none, they have a header.
#[tactic(auto, unfolding(crate::specs::Reading::front_fault, crate::specs::Reading::profile_at))]
fn profile_in_front(bytes: &[u8]) -> Result<Profile, ImageFault>
    ensures { MatchResult result
        (λ p. (p ≡ profile_at bytes.now) × (front_fault bytes.now ≡ None) × (header_length p ≤ length bytes.now))
        (λ fault. front_fault bytes.now ≡ Some fault) }
{
    if bytes.len() < header_length(Profile::One) {
        return Err(ImageFault::Short);
    }
    if u32_of(bytes) != MAGIC {
        return Err(ImageFault::Magic);
    }
    let Some(profile) = profile_of_version(u16_of(from_place(bytes, 4))) else {
        return Err(ImageFault::Version);
    };
    if bytes.len() < header_length(profile) {
        return Err(ImageFault::Short);
    }
    Ok(profile)
}

/// The chain limit that bytes of this profile say; of Profile 1 it is the default.
fn chain_limit_of(profile: Profile, bytes: &[u8]) -> u16
    requires { header_length profile ≤ length bytes.now }
    ensures { result ≡ chain_limit_in profile bytes.now }
{
    match profile {
        Profile::One => u16::from(DEFAULT_CHAIN_LIMIT),
        Profile::Two => u16_of(from_place(bytes, CHAIN_PLACE)),
    }
}

impl Header {
    /// The header that the bytes begin with; else the first of `Short`, `Magic`, `Version`, `Short` and `Count` that
    /// they have.
    pub(crate) fn read(bytes: &[u8]) -> Result<Header, ImageFault>
        ensures { MatchResult result
            (λ h. (h ≡ header_at bytes.now) × (header_fault bytes.now ≡ None))
            (λ fault. header_fault bytes.now ≡ Some fault) }
    {
        let profile = profile_in_front(bytes)?;
        let tail = from_place(bytes, tail_place(profile));
        let header = Header {
            profile,
            processors: u16_of(from_place(bytes, 6)),
            slim: u16_of(from_place(bytes, 8)),
            chain_limit: chain_limit_of(profile, bytes),
            retry_limit: u32_of(tail),
            trap_entry: u32_of(from_place(tail, 4)),
            words: u32_of(from_place(tail, 8)),
            cells: u32_of(from_place(tail, 12)),
        };
        match header.count_fault() {
            Some(field) => Err(ImageFault::Count(field)),
            None => Ok(header),
        }
    }

    /// The first number that is out of its limits.
    fn count_fault(self) -> Option<CountField>
        ensures { result ≡ count_fault self.processors self.slim self.chain_limit self.words self.cells }
    {
        count_fault(
            usize::from(self.processors),
            usize::from(self.slim),
            usize::from(self.chain_limit),
            self.words as usize,
            self.cells as usize,
        )
    }

    /// Where the entries begin.
    pub(crate) fn entries_place(self) -> usize
        ensures is { result ≡ header_length self.profile }
        ensures few { result ≤ 28 }
    {
        header_length(self.profile)
    }

    /// Where the program words begin.
    pub(crate) fn program_place(self) -> usize
        ensures { result ≡ header_length self.profile + 4 * self.processors }
    {
        self.entries_place() + 4 * usize::from(self.processors)
    }

    /// Where the data words begin.
    pub(crate) fn cells_place(self) -> usize
        ensures { result ≡ header_length self.profile + 4 * self.processors + 8 * self.words }
    {
        self.program_place() + 8 * self.words as usize
    }

    /// How many bytes the file has.
    pub(crate) fn file_length(self) -> usize
        ensures { result ≡ header_length self.profile + 4 * self.processors + 8 * self.words + 9 * self.cells }
    {
        self.cells_place() + 9 * self.cells as usize
    }
}
