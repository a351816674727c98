//! One request of the turn memory.

ghost use Rattle.std.specs.Prelude.{◌≡◌, ◌<◌, ◌-◌, ◌++◌, ◌∷◌, [], Some, IfOk, OnErr};
ghost use Rattle.processor.specs.Histories.{pairs_of};
ghost use Rattle.shared_history.specs.SharedMemory.{SharedValue};
ghost use Rattle.memory_lock.specs.declared.turns.views.Stage.TheVariants.{Idle, Waits, Holds};
ghost use Rattle.memory_lock.specs.Seats.{with_stage, after_ask, past_of, IsAt, IsSeatOf, IsSameSeat};

use crate::back_off::BackOff;
use crate::requests::ask_memory;
use crate::turns::rule::{Draw, Poll, Raise, TurnSeat, TurnTable};
use shared_history::{NoRoom, SharedMemory};
use std::sync::Wait;
use std::time::Duration;
use std::{hint, thread};
use tag_memory::{Reply, Request};

/// The table's word with the ticket that is served.
const SERVED: usize = 0;

/// The table's word with the next ticket to be drawn.
const NEXT: usize = 1;

/// How many looks for a moment with no ticket drawn a thread makes before it draws its own all the same.
const PATIENT_LOOKS: u32 = 200;

/// How many looks for its turn a thread makes one after another,
const EAGER_LOOKS: u32 = 50;

/// how many it makes in all before it sleeps between two looks,
const WAKING_LOOKS: u32 = 2_000;

/// and for how many microseconds it sleeps. Nobody wakes it: who goes on does not know that another sleeps.
const SLEEP_MICROSECONDS: u64 = 200;

/// Draws a ticket, and with its turn asks for stream `s` of processor `p`. `NoRoom` where the memory has no room for
/// an entry, or no such processor: then nothing is asked, and the turn goes by.
#[inline(always)]
pub(crate) fn ask_in_turn<'i, R: Wait>(
    rt: &R,
    table: &TurnTable<'i>,
    seat: &mut TurnSeat<'i>,
    back_off: &mut BackOff,
    p: u8,
    s: u8,
    request: &Request,
) -> Result<Reply, NoRoom>
    requires table { IsSeatOf seat.old table.now.table_id }
    requires idle { IsAt seat.old.me.0 Idle × (seat.old.me.1 ≡ []) × (seat.old.me.0.number ≡ p)
        × (seat.old.me.0.own.asks < 4294967295) }
    ensures same { IsSameSeat seat.old seat.new }
    ensures ok { IfOk result (λ reply. seat.new.me
        ≡ (after_ask seat.old.me.0 (record { s = s; request = request.now; reply = reply } ∷ []), [])) }
    ensures err { OnErr result (seat.new.me ≡ (after_ask seat.old.me.0 [], [])) }
{
    await_no_ticket(table, back_off);
    let ticket = table.fetch_add::<Draw>(seat, NEXT, 1);
    wait_turn(rt, table, seat, ticket);
    let reply = ask_slot(seat.slot_mut(&*table, 0), p, s, request);
    table.fetch_add::<Raise>(seat, SERVED, 1);
    reply
}

/// Waits for a moment with no ticket drawn, but not for long. A thread that waits without a ticket holds no other up:
/// on one core the other goes on for as long as it runs, and the two need not change places at each request.
#[inline(always)]
fn await_no_ticket(table: &TurnTable, back_off: &mut BackOff)
    requires { table.now.table_id.words ≡ 2 }
{
    if is_free(table) {
        back_off.was_free();
        return;
    }
    for looks in 0..PATIENT_LOOKS {
        back_off.pause(looks);
        if is_free(table) {
            return;
        }
    }
}

/// Whether no ticket is drawn.
#[inline(always)]
fn is_free(table: &TurnTable) -> bool
    requires { table.now.table_id.words ≡ 2 }
{
    table.peek(SERVED) == table.peek(NEXT)
}

/// Lets a moment go by after so many looks, where this ticket was served at the last.
fn pause<R: Wait>(rt: &R, table: &TurnTable, looks: u32, served: u64)
    requires { table.now.table_id.words ≡ 2 }
{
    if looks < EAGER_LOOKS {
        hint::spin_loop();
    } else if looks < WAKING_LOOKS {
        thread::yield_now();
    } else {
        let low = (served % (1 << 32)) as u32;
        table.park_timeout(rt, SERVED, low, Duration::from_micros(SLEEP_MICROSECONDS));
    }
}

/// Waits until the ticket is served, and takes the slot.
fn wait_turn<'i, R: Wait>(rt: &R, table: &TurnTable<'i>, seat: &mut TurnSeat<'i>, ticket: u64)
    requires table { IsSeatOf seat.old table.now.table_id }
    requires waits { IsAt seat.old.me.0 (Waits ticket) × (seat.old.me.1 ≡ []) }
    ensures same { IsSameSeat seat.old seat.new }
    ensures took { (m : SharedValue)
        × (seat.new.me
        ≡ (with_stage seat.old.me.0 seat.old.me.0.own.asks (Holds ticket (past_of m)), (0, Some m) ∷ []))
        × (pairs_of seat.old.me.0.number m.history ≡ seat.old.me.0.own.made) }
{
    let mut looks: u32 = 0;
    for _ in rt.forever() {
        let served = table.load::<Poll>(seat, SERVED);
        if served == ticket {
            return;
        }
        pause(rt, table, looks, served);
        looks = looks.saturating_add(1);
    }
    unreachable!()
}

/// Asks the memory in the slot, where it stays.
fn ask_slot(
    slot: &mut Option<SharedMemory>,
    p: u8,
    s: u8,
    request: &Request,
) -> Result<Reply, NoRoom>
    requires has { (m : SharedValue) × (slot.old ≡ Some m) }
    ensures asked { (m : SharedValue) × (x : SharedValue) × (slot.old ≡ Some m) × (slot.new ≡ Some x)
        × IfOk result (λ reply. x ≡ record m {
          history = m.history ++ record { p = p; s = s; request = request.now; reply = reply } ∷ [];
          spare = m.spare - 1;
        })
        × OnErr result (x ≡ m) }
{
    let Some(memory) = slot else { unreachable!() };
    ask_memory(memory, p, s, request)
}
