//! What a directive says.

ghost use Rattle.std.specs.Prelude.{◌≡◌, ◌-◌, ℕ, List};
ghost use Rattle.asm_line.specs.Labels.{places_of};
ghost use Rattle.asm_line.specs.OperandsSeen.{AreOperands};
ghost use Rattle.asm_line.specs.Directives.{profile_read, profile_numbered, profile_item, slim, chain, retry, trap};
ghost use Rattle.asm_line.specs.Directives.{entry_item, word, data_cell, fill, cells};
ghost use Rattle.asm_line.specs.Directives.{item_of_directive};
ghost use Rattle.asm_line.specs.Directives.{entry_number, word_number, tags_number};

use crate::arguments::Arguments;
use crate::fault::{Fault, both};
use crate::item::Item;
use crate::labels::Labels;
use crate::numbers::{count_within, number_32, number_64, small_count, small_within};
use crate::operand::immediate;
use crate::operation::Directive;
use insn_word::Profile;

/// What a directive adds, where the text has so many words.
#[tactic(auto, unfolding(crate::specs::Directives::item_of_directive))]
pub(crate) fn item_of_directive(
    labels: &Labels,
    words: usize,
    directive: Directive,
    operands: &Arguments,
) -> Result<Item, Fault>
    ensures { (os : List (List ℕ)) → AreOperands operands.now os
        → result ≡ item_of_directive (places_of labels.now) words directive os }
{
    match directive {
        Directive::Profile => profile(operands),
        Directive::Slim => slim(operands),
        Directive::Chain => chain(operands),
        Directive::Retry => retry(operands),
        Directive::Trap => trap(labels, operands),
        Directive::Entry => entry(labels, words, operands),
        Directive::Word => word(operands),
        Directive::Data => data_cell(operands),
        Directive::Fill => fill(operands),
    }
}

/// `.profile`: 1 or 2
fn profile(operands: &Arguments) -> Result<Item, Fault>
    ensures { (os : List (List ℕ)) → AreOperands operands.now os → result ≡ profile_item os }
{
    let profile = read_profile(operands)?;
    Ok(Item::Profile(profile))
}

/// The profile that the operand of `.profile` says.
#[tactic(auto, unfolding(crate::specs::Directives::profile_read))]
pub(crate) fn read_profile(operands: &Arguments) -> Result<Profile, Fault>
    ensures { (os : List (List ℕ)) → AreOperands operands.now os → result ≡ profile_read os }
{
    let Arguments::One(x) = *operands else {
        return Err(Fault::Operand);
    };
    let number = count_within(2, x)?;
    Ok(numbered(number))
}

/// The profile of this number, 1 or 2.
fn numbered(number: u32) -> Profile
    ensures { result ≡ profile_numbered number }
{
    if number == 2 {
        Profile::Two
    } else {
        Profile::One
    }
}

/// `.slim`: 1 to 128
fn slim(operands: &Arguments) -> Result<Item, Fault>
    ensures { (os : List (List ℕ)) → AreOperands operands.now os → result ≡ slim os }
{
    let Arguments::One(x) = *operands else {
        return Err(Fault::Operand);
    };
    let streams = small_count(x)?;
    Ok(Item::Slim(streams))
}

/// `.chain`: 0 to 64
fn chain(operands: &Arguments) -> Result<Item, Fault>
    ensures { (os : List (List ℕ)) → AreOperands operands.now os → result ≡ chain os }
{
    let Arguments::One(x) = *operands else {
        return Err(Fault::Operand);
    };
    let limit = small_within(64, x)?;
    Ok(Item::Chain(limit))
}

/// `.retry`: a number of 32 bits
fn retry(operands: &Arguments) -> Result<Item, Fault>
    ensures { (os : List (List ℕ)) → AreOperands operands.now os → result ≡ retry os }
{
    let Arguments::One(x) = *operands else {
        return Err(Fault::Operand);
    };
    let limit = number_32(x)?;
    Ok(Item::Retry(limit))
}

/// `.trap`: a number of 32 bits or a label
fn trap(labels: &Labels, operands: &Arguments) -> Result<Item, Fault>
    ensures { (os : List (List ℕ)) → AreOperands operands.now os → result ≡ trap (places_of labels.now) os }
{
    let Arguments::One(x) = *operands else {
        return Err(Fault::Operand);
    };
    let entry = immediate(labels, x)?;
    Ok(Item::Trap(entry))
}

/// `.entry`: a number or label, below the number of words
fn entry(labels: &Labels, words: usize, operands: &Arguments) -> Result<Item, Fault>
    ensures { (os : List (List ℕ)) → AreOperands operands.now os
        → result ≡ entry_item (places_of labels.now) words os }
{
    let Arguments::One(x) = *operands else {
        return Err(Fault::Operand);
    };
    let entry = entry_number(labels, words, x)?;
    Ok(Item::Entry(entry))
}

#[tactic(auto, unfolding(crate::specs::Directives::entry_number))]
fn entry_number(labels: &Labels, words: usize, text: &[u8]) -> Result<u32, Fault>
    ensures { result ≡ entry_number (places_of labels.now) words text.now }
{
    let entry = immediate(labels, text)?;
    if (entry as usize) < words {
        Ok(entry)
    } else {
        Err(Fault::Range)
    }
}

/// `.word`: a number of 64 bits
fn word(operands: &Arguments) -> Result<Item, Fault>
    ensures { (os : List (List ℕ)) → AreOperands operands.now os → result ≡ word os }
{
    let Arguments::One(x) = *operands else {
        return Err(Fault::Operand);
    };
    let word = word_number(x)?;
    Ok(Item::Word(word))
}

/// `.data`: a value, and perhaps tags; the cell is full where no tags are given
fn data_cell(operands: &Arguments) -> Result<Item, Fault>
    ensures { (os : List (List ℕ)) → AreOperands operands.now os → result ≡ data_cell os }
{
    match *operands {
        Arguments::One(x) => cells(Ok(1), word_number(x), Ok(1)),
        Arguments::Two(x, y) => cells(Ok(1), word_number(x), tags_number(y)),
        _ => Err(Fault::Operand),
    }
}

/// `.fill`: how many cells, their value and their tags
fn fill(operands: &Arguments) -> Result<Item, Fault>
    ensures { (os : List (List ℕ)) → AreOperands operands.now os → result ≡ fill os }
{
    let Arguments::Three(x, y, z) = *operands else {
        return Err(Fault::Operand);
    };
    cells(count_within(262_144, x), word_number(y), tags_number(z))
}

fn cells(
    count: Result<u32, Fault>,
    value: Result<u64, Fault>,
    tags: Result<u8, Fault>,
) -> Result<Item, Fault>
    ensures { result ≡ cells count value tags }
{
    let ((count, value), tags) = both(both(count, value), tags)?;
    Ok(Item::Cells { count, value, tags })
}

/// A number of 64 bits.
#[tactic(auto, unfolding(crate::specs::Directives::word_number))]
fn word_number(text: &[u8]) -> Result<u64, Fault>
    ensures { result ≡ word_number text.now }
{
    number_64(text)
}

/// Tags, 0 to 15.
#[tactic(auto, unfolding(crate::specs::Directives::tags_number))]
fn tags_number(text: &[u8]) -> Result<u8, Fault>
    ensures { result ≡ tags_number text.now }
{
    small_within(15, text)
}
