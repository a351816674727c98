//! The table, from its making to its end.

ghost use Rattle.std.specs.Prelude.{◌≡◌, ◌-◌, [], IfOk, IfErr, false, Some};
ghost use Rattle.processor.specs.Histories.{pairs_of};
ghost use Rattle.memory_lock.specs.declared.turns.views.Caller.{Caller};
ghost use Rattle.memory_lock.specs.declared.turns.views.Stage.TheVariants.{Idle};
ghost use Rattle.memory_lock.specs.Seats.{IsSeatOf, first_view};

use crate::turns::rule::{TurnMemory, TurnSeat};
use atomic_table::{Refused, Table};
use shared_history::SharedMemory;
use std::alloc::Global;

/// A table for the memory's image, with the memory in its slot, and its first seat, which stands for both processors. Where there is no room
/// for a table, the memory is handed back as it was.
pub fn open_table<'i>(
    alloc: Global,
    memory: SharedMemory<'i>,
) -> Result<(TurnMemory<'i>, TurnSeat<'i>), SharedMemory<'i>>
    requires { memory.history ≡ [] }
    ensures ok { IfOk result (λ t. IsSeatOf t.1 t.0.shared.table_id × (t.1.me ≡ (first_view, []))) }
    ensures image { IfOk result (λ t. t.0.shared.key ≡ memory.entry.image) }
    ensures err { IfErr result (λ m. m ≡ memory.entry) }
{
    let image = memory.image();
    let Ok(mut slots) = Vec::with_capacity(alloc, 1) else {
        return Err(memory);
    };
    slots.push_reserved(Some(memory));
    match Table::new(alloc, &[0, 0], slots, image) {
        Ok(made) => Ok(made),
        Err(Refused { mut slots }) => Err(slots.pop().unwrap().unwrap()),
    }
}

/// Ends the table, with the seat that stands for both processors again: the memory, which is of the table's image and in
/// whose history each processor has just what it made.
pub fn close_table<'i>(table: TurnMemory<'i>, seat: TurnSeat<'i>) -> SharedMemory<'i>
    requires of { IsSeatOf seat table.shared.table_id }
    requires both { (seat.me.0.is_spent ≡ false) × (seat.me.0.own.stage ≡ Idle)
        × ((c : Caller) × (seat.me.0.other ≡ Some c)) }
    ensures image { result.image ≡ table.entry.shared.key }
    ensures own { pairs_of seat.entry.me.0.number result.history ≡ seat.entry.me.0.own.made }
    ensures other { (c : Caller) → seat.entry.me.0.other ≡ Some c
        → pairs_of (1 - seat.entry.me.0.number) result.history ≡ c.made }
{
    let mut closed = table.close_with(seat);
    let memory = closed.take(0).unwrap();
    closed.free();
    memory
}
