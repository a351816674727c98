//! The key of a machine's world, as it is cleared of registers and condition codes that do not matter.

ghost use Rattle.std.specs.Prelude.{◌≡◌, ◌<◌, ◌++◌, true, length, IfOk, OnOk};
ghost use Rattle.stream_core.specs.Streams.{idle};
ghost use Rattle.processor.specs.Processors.{is_idle, is_idle_status};
ghost use Rattle.dead_registers.specs.Clearing.{cleared_stream, cleared};
ghost use Rattle.world_keys.specs.Tables.{Extends};
ghost use Rattle.world_keys.specs.WorldKeys.{stream_mark, processor_in, processor_numbers, processor_place, key_of};
ghost use Rattle.world_keys.specs.WorldKeys.{IsMemoryOf, IsKnownStream, IsHeld, IsKnownProcessor, IsKnown};

use crate::memory_numbers::memory_numbers;
use crate::stream_numbers::stream_numbers;
use crate::tables::Table;
use dead_registers::LiveRegisters;
use machine::Machine;
use std::alloc::{AllocError, Global};
use stream_core::{Status, Stream};

/// The key of a machine's world with 0 in each register and each condition code that does not matter: the place of what its
/// memory holds, and that of what each processor holds, in a table to which is added what it does not have. What is in the table stays
/// where it is, also where memory is refused.
///
/// Worlds of one image have the same key, by one table or one that was extended since, exactly where they are the same
/// when they are cleared so: `keys_distinguish_worlds` is the law. Where all registers are named, all matter.
pub fn world_key<const S: usize>(
    alloc: Global,
    live: &LiveRegisters,
    contents: &mut Table,
    machine: &Machine<'_, S>,
) -> Result<Vec<u32>, AllocError>
    requires { IsMemoryOf machine.now.image machine.now.world.memory }
    ensures is { IfOk result (λ v. v.items ≡ key_of contents.new machine.now.image (cleared live.now machine.now.world)) }
    ensures known { OnOk result (IsKnown contents.new machine.now.image (cleared live.now machine.now.world)) }
    ensures grown { Extends contents.old contents.new }
{
    let memory = memory_numbers(alloc, machine)?;
    let place = contents.place(&memory)?;
    let count = machine.image().processors();
    let mut key = Vec::with_capacity(alloc, count + 1)?;
    key.push(place)?;
    for p in 0..count {
        let place = processor_place(alloc, live, contents, machine, p as u8)?;
        key.push(place)?;
    }
    Ok(key)
}

/// The place of what a processor holds, as it is cleared.
pub(crate) fn processor_place<const S: usize>(
    alloc: Global,
    live: &LiveRegisters,
    contents: &mut Table,
    machine: &Machine<'_, S>,
    p: u8,
) -> Result<u32, AllocError>
    requires { p < length machine.now.world.processors }
    ensures is { IfOk result (λ k. k
        ≡ processor_place contents.new (processor_in (cleared live.now machine.now.world) p)) }
    ensures known { OnOk result (IsKnownProcessor contents.new machine.now.image
        (processor_in (cleared live.now machine.now.world) p)) }
    ensures grown { Extends contents.old contents.new }
{
    let numbers = processor_numbers(alloc, live, contents, machine, p)?;
    let place = contents.place(&numbers)?;
    Ok(place)
}

/// How many streams of a processor are reserved, and its streams that are not idle.
fn processor_numbers<const S: usize>(
    alloc: Global,
    live: &LiveRegisters,
    contents: &mut Table,
    machine: &Machine<'_, S>,
    p: u8,
) -> Result<Vec<u32>, AllocError>
    requires { p < length machine.now.world.processors }
    ensures is { IfOk result (λ v. v.items
        ≡ processor_numbers contents.new (processor_in (cleared live.now machine.now.world) p)) }
    ensures held { OnOk result (IsHeld contents.new machine.now.image
        (processor_in (cleared live.now machine.now.world) p)) }
    ensures grown { Extends contents.old contents.new }
{
    let (_, sres) = machine.counts(p).unwrap();
    let mut numbers = Vec::new(alloc);
    numbers.push(u32::from(sres))?;
    for s in 0..machine.image().slim() {
        let stream = machine.stream(p, s as u8).unwrap();
        push_mark(alloc, live, contents, &mut numbers, u32::from(s), stream)?;
    }
    Ok(numbers)
}

/// Adds the numbers of a stream of this number.
fn push_mark(
    alloc: Global,
    live: &LiveRegisters,
    contents: &mut Table,
    numbers: &mut Vec<u32>,
    s: u32,
    stream: &Stream,
) -> Result<(), AllocError>
    requires { is_idle stream.now ≡ true → stream.now ≡ idle }
    ensures is { OnOk result (numbers.new.items ≡ numbers.old.items ++ stream_mark contents.new s (cleared_stream live.now stream.now)) }
    ensures known { OnOk result (IsKnownStream contents.new (cleared_stream live.now stream.now)) }
    ensures grown { Extends contents.old contents.new }
{
    if is_idle(stream.status()) {
        return Ok(());
    }
    let held = stream_numbers(alloc, live, stream)?;
    let place = contents.place(&held)?;
    numbers.push(s)?;
    numbers.push(place)?;
    Ok(())
}

/// Whether a stream of this status is idle.
pub(crate) fn is_idle(status: Status) -> bool
    ensures { result ≡ is_idle_status status }
{
    match status {
        Status::Idle => true,
        Status::Running | Status::Stopped(_) => false,
    }
}
