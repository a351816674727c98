//! What a machine starts with.

ghost use Rattle.std.specs.Prelude.{◌≡◌, ◌<◌, ◌≤◌, ◌↔◌, length, slice_get, IsSome, IfSome};
ghost use Rattle.std.specs.Bool.{IsTrue};
ghost use Rattle.tag_memory.specs.Storage.{default_chain_limit, most_chain_limit, most_memory_words};
ghost use Rattle.image_file.specs.ImageValue.{IsWithin, most_processors, most_program_words};
ghost use Rattle.image_file.specs.Same.{same_image};
ghost use Rattle.image_file.specs.SameLaws.{same_image-laws};

use insn_word::Profile;
use std::marker::Model;
use tag_memory::Word;

/// An image: what a machine starts with ("Images", docs/MACHINE.md).
///
/// Every image has 1 to 16 processors, a slim of 1 to 128, 1 to 65,536 program words and 1 to 262,144 data words,
/// and the entry of each processor is below the number of program words. Its chain limit is at most 64, and 8 in
/// Profile 1.
#[derive(Debug, Drop)]
pub struct Image {
    pub(crate) profile: Profile,
    pub(crate) slim: u16,
    pub(crate) chain_limit: u8,
    pub(crate) retry_limit: u32,
    pub(crate) trap_entry: u32,
    pub(crate) entries: Vec<u32>,
    pub(crate) program: Vec<u64>,
    pub(crate) cells: Vec<Word>,
}

impl Model for Image {
    ghost use Rattle.image_file.specs.ImageValue.{ImageValue, IsWithin, image_in};

    ghost Value = { ImageValue };

    ghost view = { λ i.
        image_in i.profile i.chain_limit i.entries.items i.slim i.retry_limit i.trap_entry i.program.items
        i.cells.items };

    ghost invariant = { λ i.
        IsWithin
        (image_in i.profile i.chain_limit i.entries.items i.slim i.retry_limit i.trap_entry i.program.items
        i.cells.items) };
}

impl Image {
    /// The profile: which operations the program words may have.
    pub fn profile(&self) -> Profile
        ensures { result ≡ self.now.profile }
    {
        self.profile
    }

    /// How many words may forward one reference, at most 64; 8 in Profile 1.
    pub fn chain_limit(&self) -> u8
        ensures is { result ≡ self.now.chain_limit }
        ensures few { result ≤ most_chain_limit }
        ensures of_one { self.now.profile ≡ Profile.One → result ≡ default_chain_limit }
    {
        self.chain_limit
    }

    /// The number of processors, 1 to 16.
    pub fn processors(&self) -> usize
        ensures is { result ≡ length self.now.entries }
        ensures some { 1 ≤ result }
        ensures few { result ≤ most_processors }
        ensures kept { IsWithin self.now }
    {
        self.entries.len()
    }

    /// The program word that a processor's first stream starts at; `None` where there is no such processor.
    pub fn entry(&self, processor: usize) -> Option<u32>
        ensures is { result ≡ slice_get self.now.entries processor }
        ensures there { IsSome result ↔ (processor < length self.now.entries) }
        ensures below { IfSome result (λ e. e < length self.now.program) }
    {
        self.entries.get(processor).copied()
    }

    /// The most streams that a processor has, 1 to 128.
    pub fn slim(&self) -> u16
        ensures is { result ≡ self.now.slim }
        ensures some { 1 ≤ result }
        ensures few { result ≤ 128 }
    {
        self.slim
    }

    /// How often a blocked reference is tried again before it traps; 0 for no limit.
    pub fn retry_limit(&self) -> u32
        ensures { result ≡ self.now.retry_limit }
    {
        self.retry_limit
    }

    /// The program word of the trap handler; 4294967295 for none. Any number is accepted.
    pub fn trap_entry(&self) -> u32
        ensures { result ≡ self.now.trap_entry }
    {
        self.trap_entry
    }

    /// The program words, whether they spell instructions or not.
    pub fn program(&self) -> &[u64]
        ensures is { result.now ≡ self.now.program }
        ensures some { 1 ≤ length result.now }
        ensures few { length result.now ≤ most_program_words }
    {
        &self.program
    }

    /// The data words.
    pub fn cells(&self) -> &[Word]
        ensures is { result.now ≡ self.now.cells }
        ensures some { 1 ≤ length result.now }
        ensures few { length result.now ≤ most_memory_words }
    {
        &self.cells
    }

    /// The entries of the processors.
    pub(crate) fn entries(&self) -> &[u32]
        ensures is { result.now ≡ self.now.entries }
        ensures few { length result.now ≤ most_processors }
    {
        &self.entries
    }

    fn is_same(&self, other: &Image) -> bool
        ensures { result ≡ same_image self.now other.now }
    {
        self.profile == other.profile
            && self.entries == other.entries
            && self.slim == other.slim
            && self.chain_limit == other.chain_limit
            && self.retry_limit == other.retry_limit
            && self.trap_entry == other.trap_entry
            && self.program == other.program
            && self.cells == other.cells
    }
}

/// Equal exactly where the images have the same profile, numbers, entries, program words and cells.
impl PartialEq for Image {
    ghost eq = { same_image };

    ghost laws = { same_image-laws };

    #[tactic(auto, using(crate::specs::SameLaws::same_image_decides))]
    fn eq(&self, other: &Image) -> bool
        ensures gives { result ≡ same_image self.now other.now }
        ensures equal { IsTrue result ↔ (self.now ≡ other.now) }
    {
        self.is_same(other)
    }
}
