//! An image in the making.

ghost use Rattle.std.specs.Prelude.{◌≡◌, ◌<◌, MatchResult, length, Ok, Err};
ghost use Rattle.std.specs.Bool.{IsTrue};
ghost use Rattle.tag_memory.specs.Cell.{cell_of};
ghost use Rattle.asm_text.specs.Drafts.{empty, add, with_entry, with_word, with_cells, has_all, image_of_draft};
ghost use Rattle.asm_text.specs.Sources.{image_or_incomplete};
ghost use Rattle.asm_text.specs.Limits.{IsReady};
ghost use Rattle.image_file.specs.ImageValue.{IsWithin};
ghost use Rattle.insn_word.specs.declared.profiles.Profile.TheVariants.{One, Two};
ghost use Rattle.asm_text.specs.Faults.{IsItemFault};

use crate::fault::AsmFault;
use crate::settings::Settings;
use crate::spelling::spelling_of;
use asm_line::{Fault, Item};
use image_file::{Image, ImageFault, MAX_PROCESSORS, MAX_PROGRAM_WORDS};
use insn_word::Profile;
use std::alloc::Global;
use std::marker::Model;
use tag_memory::{DEFAULT_CHAIN_LIMIT, MAX_WORDS, Word};

/// How many streams a processor has at most where no `.slim` says it.
const DEFAULT_SLIM: u8 = 8;

/// What the first lines of a text give of its image.
#[derive(Drop)]
pub(crate) struct Draft {
    settings: Settings,
    entries: Vec<u32>,
    words: Vec<u64>,
    cells: Vec<Word>,
}

impl Model for Draft {
    ghost use Rattle.asm_text.specs.Drafts.{DraftValue};

    ghost Value = { DraftValue };

    ghost view = { λ d.
        record { settings = d.settings; entries = d.entries.items; words = d.words.items; cells = d.cells.items } };
}

impl Draft {
    pub(crate) fn new(alloc: Global) -> Draft
        ensures { result ≡ empty }
    {
        Draft {
            settings: Settings::NONE,
            entries: Vec::new(alloc),
            words: Vec::new(alloc),
            cells: Vec::new(alloc),
        }
    }

    /// How many program words there are.
    pub(crate) fn words(&self) -> usize
        ensures { result ≡ length self.now.words }
    {
        self.words.len()
    }

    /// Takes what a line adds.
    #[tactic(auto, unfolding(crate::specs::Drafts::add))]
    pub(crate) fn add(&mut self, item: Item) -> Result<(), Fault>
        requires { IsReady item }
        ensures { MatchResult result (λ _. add self.old item ≡ Ok self.new) (λ e. IsItemFault e (add self.old item)) }
    {
        match item {
            Item::Nothing => {}
            Item::Profile(_) => self.settings = self.settings.with_profile()?,
            Item::Slim(slim) => self.settings = self.settings.with_slim(slim)?,
            Item::Chain(limit) => self.settings = self.settings.with_chain(limit)?,
            Item::Retry(retry) => self.settings = self.settings.with_retry(retry)?,
            Item::Trap(trap) => self.settings = self.settings.with_trap(trap)?,
            Item::Entry(entry) => self.add_entry(entry)?,
            Item::Instruction(insn) => self.add_word(spelling_of(&insn))?,
            Item::Word(word) => self.add_word(word)?,
            Item::Cells { count, value, tags } => self.add_cells(count, value, tags)?,
        }
        Ok(())
    }

    fn add_entry(&mut self, entry: u32) -> Result<(), Fault>
        ensures { MatchResult result (λ _. with_entry self.old entry ≡ Ok self.new)
            (λ e. IsItemFault e (with_entry self.old entry)) }
    {
        if self.entries.len() >= MAX_PROCESSORS {
            return Err(Fault::Limit);
        }
        self.entries.push(entry).map_err(|_| Fault::NoMemory)
    }

    fn add_word(&mut self, word: u64) -> Result<(), Fault>
        ensures { MatchResult result (λ _. with_word self.old word ≡ Ok self.new)
            (λ e. IsItemFault e (with_word self.old word)) }
    {
        if self.words.len() >= MAX_PROGRAM_WORDS {
            return Err(Fault::Limit);
        }
        self.words.push(word).map_err(|_| Fault::NoMemory)
    }

    fn add_cells(&mut self, count: u32, value: u64, tags: u8) -> Result<(), Fault>
        requires { tags < 16 }
        ensures { MatchResult result (λ _. with_cells self.old count (cell_of value tags) ≡ Ok self.new)
            (λ e. IsItemFault e (with_cells self.old count (cell_of value tags))) }
    {
        let count = count as usize;
        if count > MAX_WORDS || self.cells.len() > MAX_WORDS - count {
            return Err(Fault::Limit);
        }
        let Some(cell) = Word::from_number(value, tags) else {
            unreachable!();
        };
        self.cells
            .resize(self.cells.len() + count, cell)
            .map_err(|_| Fault::NoMemory)
    }

    /// The image of this profile, if there is an entry, a program word and a cell.
    #[tactic(auto, unfolding(crate::specs::Drafts::image_of_draft))]
    pub(crate) fn finish(mut self, profile: Profile) -> Result<Image, AsmFault>
        requires { IsTrue (has_all self) → IsWithin (image_of_draft profile self) }
        ensures { MatchResult result (λ i. image_or_incomplete profile self ≡ Ok i)
            (λ e. image_or_incomplete profile self ≡ Err e) }
    {
        if self.entries.is_empty() || self.words.is_empty() || self.cells.is_empty() {
            return Err(AsmFault::INCOMPLETE);
        }
        let image = match profile {
            Profile::One => self.image_of_one(),
            Profile::Two => self.image_of_two(),
        };
        let Ok(image) = image else {
            unreachable!();
        };
        Ok(image)
    }

    /// The image of Profile 1; what the draft has is left to it.
    #[tactic(auto, unfolding(crate::specs::Drafts::image_of_draft))]
    fn image_of_one(&mut self) -> Result<Image, ImageFault>
        requires { IsWithin (image_of_draft One self.old) }
        ensures { result ≡ Ok (image_of_draft One self.old) }
    {
        let settings = self.settings;
        Image::from_parts(
            &mut self.entries,
            u16::from(settings.slim.unwrap_or(DEFAULT_SLIM)),
            settings.retry.unwrap_or(0),
            settings.trap.unwrap_or(u32::MAX),
            &mut self.words,
            &mut self.cells,
        )
    }

    /// The image of Profile 2; what the draft has is left to it.
    #[tactic(auto, unfolding(crate::specs::Drafts::image_of_draft))]
    fn image_of_two(&mut self) -> Result<Image, ImageFault>
        requires { IsWithin (image_of_draft Two self.old) }
        ensures { result ≡ Ok (image_of_draft Two self.old) }
    {
        let settings = self.settings;
        Image::from_parts_2(
            settings.chain.unwrap_or(DEFAULT_CHAIN_LIMIT),
            &mut self.entries,
            u16::from(settings.slim.unwrap_or(DEFAULT_SLIM)),
            settings.retry.unwrap_or(0),
            settings.trap.unwrap_or(u32::MAX),
            &mut self.words,
            &mut self.cells,
        )
    }
}
