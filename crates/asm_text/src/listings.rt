//! The listing of an image.

ghost use Rattle.std.specs.Prelude.{◌≡◌, ◌<◌, ◌^◌, ◌++◌, map, IfOk, OnOk, string_bytes};
ghost use Rattle.std.specs.List.{All};
ghost use Rattle.tag_memory.specs.Cell.{tag_number};
ghost use Rattle.image_file.specs.ImageValue.{IsWithin};
ghost use Rattle.listing_line.specs.DirectiveLines.{profile_line, slim_line, retry_line, number_line};
ghost use Rattle.listing_line.specs.DirectiveLines.{entry_line, fill_line};
ghost use Rattle.asm_text.specs.Sources.{Means};
ghost use Rattle.asm_text.specs.Runs.{cell_runs};
ghost use Rattle.asm_text.specs.Listing.{setting_lines, chain_lines, trap_lines, word_lines, cell_run_line};
ghost use Rattle.asm_text.specs.Listing.{text_of_lines, with_line_end, listing};

use crate::laws::listings_are_read_back;
use crate::runs::first_run;
use asm_line::{Directive, names};
use image_file::Image;
use insn_word::Profile;
use listing_line::push_word_line;
use std::alloc::{AllocError, Global};
use std::fmt::Write;
use tag_memory::Word;
use text_parts::push_hexadecimal_16;

/// The listing of an image ("Listing", docs/FORMATS.md): its directives, its entries, its program words and its data
/// cells, each run of equal cells in one line.
///
/// It means just that image, so [`assemble`](crate::assemble) of it gives the image.
pub fn listing(alloc: Global, image: &Image) -> Result<String, AllocError>
    ensures is { IfOk result (λ t. string_bytes t ≡ listing image.now) }
    ensures means { IfOk result (λ t. Means (string_bytes t) image.now) }
{
    listings_are_read_back();
    let mut text = String::new(alloc);
    push_settings(&mut text, image)?;
    push_entries(&mut text, image)?;
    push_program(&mut text, image)?;
    push_cells(&mut text, image.cells())?;
    Ok(text)
}

/// Appends the directives that stand once.
fn push_settings(text: &mut String, image: &Image) -> Result<(), AllocError>
    ensures is { OnOk result (string_bytes text.new
        ≡ string_bytes text.old ++ text_of_lines (setting_lines image.now)) }
    ensures fit { OnOk result ((image.now.retry_limit < 2 ^ 32) × (image.now.trap_entry < 2 ^ 32)) }
{
    push_profile(text, image.profile())?;
    push_slim(text, image.slim())?;
    push_chain(text, image)?;
    push_retry(text, image.retry_limit())?;
    push_trap(text, image.trap_entry())
}

#[tactic(auto, unfolding(listing_line::specs::DirectiveLines::profile_line))]
fn push_profile(text: &mut String, profile: Profile) -> Result<(), AllocError>
    ensures { OnOk result (string_bytes text.new ≡ string_bytes text.old ++ with_line_end (profile_line profile)) }
{
    push_number(text, Directive::Profile, names::profile_number(profile))
}

#[tactic(auto, unfolding(listing_line::specs::DirectiveLines::slim_line))]
fn push_slim(text: &mut String, slim: u16) -> Result<(), AllocError>
    ensures { OnOk result (string_bytes text.new ≡ string_bytes text.old ++ with_line_end (slim_line slim)) }
{
    push_number(text, Directive::Slim, u32::from(slim))
}

#[tactic(auto, unfolding(listing_line::specs::DirectiveLines::chain_line))]
fn push_chain(text: &mut String, image: &Image) -> Result<(), AllocError>
    ensures { OnOk result (string_bytes text.new ≡ string_bytes text.old
        ++ text_of_lines (chain_lines image.now.profile image.now.chain_limit)) }
{
    match image.profile() {
        Profile::One => Ok(()),
        Profile::Two => push_number(text, Directive::Chain, u32::from(image.chain_limit())),
    }
}

#[tactic(auto, unfolding(listing_line::specs::DirectiveLines::retry_line))]
fn push_retry(text: &mut String, retry: u32) -> Result<(), AllocError>
    ensures { OnOk result (string_bytes text.new ≡ string_bytes text.old ++ with_line_end (retry_line retry)) }
{
    push_number(text, Directive::Retry, retry)
}

#[tactic(auto, unfolding(listing_line::specs::DirectiveLines::trap_line))]
fn push_trap(text: &mut String, trap: u32) -> Result<(), AllocError>
    ensures { OnOk result (string_bytes text.new ≡ string_bytes text.old ++ text_of_lines (trap_lines trap)) }
{
    if trap == u32::MAX {
        return Ok(());
    }
    push_number(text, Directive::Trap, trap)
}

/// Appends a directive that has one number.
fn push_number(text: &mut String, directive: Directive, number: u32) -> Result<(), AllocError>
    ensures { OnOk result (string_bytes text.new
        ≡ string_bytes text.old ++ with_line_end (number_line directive number)) }
{
    let name = names::directive(directive);
    writeln!(text, "{name} {number}")
}

/// Appends the entries.
fn push_entries(text: &mut String, image: &Image) -> Result<(), AllocError>
    ensures is { OnOk result (string_bytes text.new ≡ string_bytes text.old
        ++ text_of_lines (map entry_line image.now.entries)) }
    ensures kept { IsWithin image.now }
{
    for processor in 0..image.processors() {
        let Some(entry) = image.entry(processor) else {
            unreachable!();
        };
        push_entry(text, entry)?;
    }
    Ok(())
}

#[tactic(auto, unfolding(listing_line::specs::DirectiveLines::entry_line))]
fn push_entry(text: &mut String, entry: u32) -> Result<(), AllocError>
    ensures { OnOk result (string_bytes text.new ≡ string_bytes text.old ++ with_line_end (entry_line entry)) }
{
    push_number(text, Directive::Entry, entry)
}

/// Appends the program words.
fn push_program(text: &mut String, image: &Image) -> Result<(), AllocError>
    ensures is { OnOk result (string_bytes text.new ≡ string_bytes text.old
        ++ text_of_lines (word_lines image.now.profile 0 image.now.program)) }
    ensures fit { All (λ w. w < 2 ^ 64) image.now.program }
{
    words_fit(image.program());
    let profile = image.profile();
    for (place, word) in image.program().iter().enumerate() {
        push_word_line(text, profile, place as u16, *word)?;
    }
    Ok(())
}

/// Each number of 64 bits fits its type. There is nothing to run.
fn words_fit(words: &[u64])
    ensures { All (λ w. w < 2 ^ 64) words.now }
{}

/// Appends the runs of equal cells.
fn push_cells(text: &mut String, cells: &[Word]) -> Result<(), AllocError>
    ensures is { OnOk result (string_bytes text.new ≡ string_bytes text.old
        ++ text_of_lines (map cell_run_line (cell_runs cells.now))) }
    ensures fit { OnOk result (All (λ c. c.value < 2 ^ 64) cells.now) }
{
    let mut rest = cells;
    while let Some((count, cell, following)) = first_run(rest) {
        push_run(text, count, cell)?;
        rest = following;
    }
    Ok(())
}

#[tactic(auto, unfolding(listing_line::specs::DirectiveLines::fill_line))]
fn push_run(text: &mut String, count: usize, cell: &Word) -> Result<(), AllocError>
    ensures is { OnOk result (string_bytes text.new ≡ string_bytes text.old
        ++ with_line_end (fill_line count cell.now.value (tag_number cell.now))) }
    ensures fits { cell.now.value < 2 ^ 64 }
{
    let name = names::directive(Directive::Fill);
    let value = cell.value();
    let tags = cell.tag_number();
    write!(text, "{name} {count}, 0x")?;
    push_hexadecimal_16(text, value)?;
    writeln!(text, ", {tags}")
}
