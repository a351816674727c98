//! Lists of numbers, each kept once.

ghost use Rattle.std.specs.Prelude.{◌≡◌, IfOk, length};
ghost use Rattle.state_tables.specs.NumberSets.{AreSets};

use std::alloc::{AllocError, Global};
use world_keys::Table;

/// Lists of numbers, and which of them each state has.
#[derive(Drop)]
pub struct NumberSets {
    /// The distinct lists.
    pub table: Table,
    /// Of each state the place of its list.
    pub set_of: Vec<u32>,
}

/// Keeps each of some lists once.
pub fn sets_of(alloc: Global, lists: &[Vec<usize>]) -> Result<NumberSets, AllocError>
    ensures { IfOk result (λ r. AreSets lists.now (length lists.now) r.table r.set_of.items) }
{
    let mut table = Table::new(alloc);
    let mut set_of = Vec::new(alloc);
    for list in lists {
        let numbers = narrowed(alloc, list)?;
        let number = table.place(&numbers)?;
        set_of.push(number)?;
    }
    Ok(NumberSets { table, set_of })
}

/// The same numbers, of 32 bits; an error if one is greater.
fn narrowed(alloc: Global, numbers: &[usize]) -> Result<Vec<u32>, AllocError>
    ensures { IfOk result (λ v. v.items ≡ numbers.now) }
{
    let mut narrow = Vec::new(alloc);
    for number in numbers {
        let Ok(small) = u32::try_from(*number) else {
            return Err(AllocError);
        };
        narrow.push(small)?;
    }
    Ok(narrow)
}
