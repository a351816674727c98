//! Rows: few numbers of each state, which count in a table of what memories, processors and streams hold.

ghost use Rattle.std.specs.Prelude.{◌≡◌, IfOk, OnOk};
ghost use Rattle.dead_registers.specs.Clearing.{cleared};
ghost use Rattle.world_keys.specs.Tables.{Extends};
ghost use Rattle.schedule_space.specs.Spaces.{count, world_of, StandAlone};
ghost use Rattle.state_tables.specs.Rows.{IsRow, AreRows};

use schedule_space::{Space, machine_at};
use std::alloc::{AllocError, Global};
use world_keys::{Table, world_key};

/// The rows of the states of a space.
#[derive(Drop)]
pub struct StateRows {
    /// What memories, processors and streams hold in some state, each once, as lists of numbers.
    pub table: Table,
    /// Of each state the number of what its memory holds, and after it of each processor that of what it holds: places
    /// in the table.
    pub rows: Vec<Vec<u32>>,
}

/// The rows of the states of a space of which each stands for itself alone, as those of a search for all states do.
pub fn rows_of<const S: usize>(alloc: Global, space: &Space<'_>) -> Result<StateRows, AllocError>
    ensures { IfOk result (λ r. StandAlone space.now
        → AreRows space.now.image r.table (world_of space.now) (count space.now) r.rows.items) }
{
    let mut table = Table::new(alloc);
    let mut rows = Vec::new(alloc);
    for place in 0..space.len() {
        let row = row_at::<S>(alloc, space, &mut table, place)?;
        rows.push(row)?;
    }
    Ok(StateRows { table, rows })
}

/// The row of the state at a place.
fn row_at<const S: usize>(
    alloc: Global,
    space: &Space<'_>,
    table: &mut Table,
    place: usize,
) -> Result<Vec<u32>, AllocError>
    ensures row { IfOk result (λ v. IsRow space.now.image table.new
        (cleared space.now.live (world_of space.now place)) v.items) }
    ensures grown { Extends table.old table.new }
{
    let machine = machine_at::<S>(alloc, space, place)?;
    let row = world_key(alloc, space.live(), table, &machine)?;
    Ok(row)
}
