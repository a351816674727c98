//! What a stream holds where it is cleared of registers and condition codes that do not matter, as numbers.

ghost use Rattle.std.specs.Prelude.{◌≡◌, ◌<◌, ◌++◌, length, map, IfOk, OnOk};
ghost use Rattle.stream_core.specs.StatusWords.{status_number};
ghost use Rattle.dead_registers.specs.Clearing.{kept_registers, cleared_stream};
ghost use Rattle.world_keys.specs.StreamNumbers.{all_halves, status_code, stream_numbers, reread, IsReadable};

use crate::halves::push_halves;
use dead_registers::LiveRegisters;
use std::alloc::{AllocError, Global};
use stream_core::{Status, StatusWord, Stream, status_words_are_their_digits};

/// How many numbers of 32 bits there are of a stream.
const STREAM_NUMBERS: usize = 88;

/// What a stream holds as it is cleared, as numbers: one that holds something else then has others.
pub(crate) fn stream_numbers(
    alloc: Global,
    live: &LiveRegisters,
    stream: &Stream,
) -> Result<Vec<u32>, AllocError>
    ensures is { IfOk result (λ v. v.items ≡ stream_numbers (cleared_stream live.now stream.now)) }
    ensures readable { OnOk result (IsReadable (cleared_stream live.now stream.now)) }
{
    let mut numbers = Vec::with_capacity(alloc, STREAM_NUMBERS)?;
    push_registers(&mut numbers, live, stream)?;
    push_targets(&mut numbers, stream)?;
    push_halves(&mut numbers, status_bits(live.status_word(stream)))?;
    push_halves(&mut numbers, stream.xr())?;
    push_halves(&mut numbers, u64::from(stream.retries()))?;
    push_halves(&mut numbers, status_code(stream.status()))?;
    Ok(numbers)
}

/// Adds the registers, with 0 in place of those that do not matter.
fn push_registers(
    numbers: &mut Vec<u32>,
    live: &LiveRegisters,
    stream: &Stream,
) -> Result<(), AllocError>
    ensures is { OnOk result (numbers.new.items
        ≡ numbers.old.items ++ all_halves (kept_registers live.now stream.now)) }
    ensures all { OnOk result (length (kept_registers live.now stream.now) ≡ 32) }
{
    let registers = live.registers(stream);
    for register in 0..32 {
        let value = registers[register];
        push_halves(numbers, value)?;
    }
    Ok(())
}

/// Adds the target registers.
fn push_targets(numbers: &mut Vec<u32>, stream: &Stream) -> Result<(), AllocError>
    ensures is { OnOk result (numbers.new.items
        ≡ numbers.old.items ++ all_halves (map status_number stream.now.targets)) }
    ensures all { OnOk result (length stream.now.targets ≡ 8) }
    ensures kept { OnOk result (map reread stream.now.targets ≡ stream.now.targets) }
{
    // their clauses say that these are all
    let _ends = (stream.target(7), stream.target(8));
    for target in 0..8u8 {
        let word = stream.target(target).unwrap();
        push_halves(numbers, status_bits(word))?;
    }
    Ok(())
}

/// The 64 bits of a status word, from which it is read back.
fn status_bits(word: StatusWord) -> u64
    ensures is { result ≡ status_number word }
    ensures kept { reread word ≡ word }
{
    status_words_are_their_digits();
    word.bits()
}

/// A status as a number.
fn status_code(status: Status) -> u64
    ensures is { result ≡ status_code status }
{
    match status {
        Status::Idle => 0,
        Status::Running => 1,
        Status::Stopped(kind) => u64::from(kind.number()) + 1,
    }
}
