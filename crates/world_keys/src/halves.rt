//! Numbers of 64 bits as two of 32 bits.

ghost use Rattle.std.specs.Prelude.{◌≡◌, ◌++◌, OnOk};
ghost use Rattle.world_keys.specs.StreamNumbers.{halves};

use std::alloc::AllocError;

/// Adds the halves of a number, the lower first.
pub(crate) fn push_halves(numbers: &mut Vec<u32>, number: u64) -> Result<(), AllocError>
    ensures { OnOk result (numbers.new.items ≡ numbers.old.items ++ halves number) }
{
    numbers.push((number % (1 << 32)) as u32)?;
    numbers.push((number / (1 << 32)) as u32)?;
    Ok(())
}
