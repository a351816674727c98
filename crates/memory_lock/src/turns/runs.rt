//! The run of two processors through the turn memory.

ghost use Rattle.std.specs.Prelude.{◌≡◌, ◌<◌, ◌≤◌, ◌+◌, ℕ, All, [], drop, length, slice_index_or};
ghost use Rattle.processor.specs.Histories.{pairs_of};
ghost use Rattle.memory_lock.specs.Driving.{IsGrown};
ghost use Rattle.memory_lock.specs.Runs.{HaveRoom, IsContinued, IsRunOfThreads};
ghost use Rattle.memory_lock.specs.Seats.{IsSeatOf, first_view};
ghost use Rattle.memory_lock.specs.TurnRuns.{HaveNewEntries};

use crate::gates::Gate;
use crate::threads::{Worker, run_by_lock};
use crate::turns::pairs::drive_both;
use crate::turns::ports::{TableBrand, TurnPort};
use crate::turns::rule::{TurnMemory, TurnSeat, TwoSeats};
use crate::turns::tables::{close_table, open_table};
use shared_history::{Parts, SharedMemory};
use std::alloc::Global;
use std::marker::Brand;
use std::sync::Wait;
use std::thread::Threads;

/// How often a port may ask.
const MOST_ASKS: u64 = 4_294_967_295;

/// Drives each processor up to the parts' fuel, through the turn memory where the parts have two records and an empty
/// history, and else through a lock.
pub fn run_threads<'i, R: Threads + Wait + Sync, G: Gate + Sync, const S: usize>(
    rt: &R,
    parts: Parts<'i, S>,
    gate: &G,
) -> Parts<'i, S>
    requires room { HaveRoom parts }
    ensures run { IsRunOfThreads parts.entry result }
    ensures room_again { HaveRoom result }
    ensures entries { length parts.entry.records ≡ 2 → parts.entry.shared.history ≡ []
        → HaveNewEntries parts.entry result }
{
    if parts.records().len() == 2 && parts.shared().entries().is_empty() {
        return run_two(rt, parts, gate);
    }
    run_by_lock(rt, parts, gate)
}

/// Drives two processors up to the parts' fuel, both at once where a thread can be had. Each goes through a port of
/// its own to the one turn memory, and makes just its entries of the history.
///
/// Where memory is refused, the parts are handed back as they were. Which processor asks first is not known.
pub fn run_two<'i, R: Threads + Wait + Sync, G: Gate + Sync, const S: usize>(
    rt: &R,
    parts: Parts<'i, S>,
    gate: &G,
) -> Parts<'i, S>
    requires room { HaveRoom parts }
    requires two { length parts.records ≡ 2 }
    requires empty { parts.shared.history ≡ [] }
    ensures run { IsRunOfThreads parts.entry result }
    ensures room_again { HaveRoom result }
    ensures entries { HaveNewEntries parts.entry result }
{
    let (fuel, shared, mut records) = parts.into_parts();
    let alloc = *records.allocator();
    let shared = run_workers(rt, alloc, shared, records.as_mut_slice(), fuel, gate);
    Parts::of(fuel, shared, records)
}

/// Drives two workers through one turn memory.
fn run_workers<'i, W: Worker + Send, R: Threads + Wait + Sync, G: Gate + Sync>(
    rt: &R,
    alloc: Global,
    memory: SharedMemory<'i>,
    workers: &mut [W],
    fuel: usize,
    gate: &G,
) -> SharedMemory<'i>
    requires two { length workers.old ≡ 2 }
    requires empty { memory.history ≡ [] }
    requires room { All (λ w. fuel ≤ length (W.value w).steps + (W.value w).spare) workers.old }
    ensures grown { (p : ℕ) (d : W) → p < 2
        → IsGrown fuel (W.value (slice_index_or workers.old p d)) (W.value (slice_index_or workers.new p d)) }
    ensures made { (p : ℕ) (d : W) → p < 2 → pairs_of p result.history
        ≡ drop (length (W.value (slice_index_or workers.old p d)).pairs)
        (W.value (slice_index_or workers.new p d)).pairs }
    ensures shared { IsContinued memory.entry result }
{
    let (front, back) = workers.split_at_mut(1);
    run_pair(rt, alloc, memory, &mut front[0], &mut back[0], fuel, gate)
}

/// The same of two that are named. The ports' type names the table, which is made here: the call of [`run_at_table`]
/// picks it, in proofs/turns/runs/run_pair/Invariants.antt.
fn run_pair<'i, W: Worker + Send, R: Threads + Wait + Sync, G: Gate + Sync>(
    rt: &R,
    alloc: Global,
    memory: SharedMemory<'i>,
    one: &mut W,
    two: &mut W,
    fuel: usize,
    gate: &G,
) -> SharedMemory<'i>
    requires empty { memory.history ≡ [] }
    requires one { fuel ≤ length (W.value one.old).steps + (W.value one.old).spare }
    requires two { fuel ≤ length (W.value two.old).steps + (W.value two.old).spare }
    ensures one_grown { IsGrown fuel (W.value one.old) (W.value one.new) }
    ensures two_grown { IsGrown fuel (W.value two.old) (W.value two.new) }
    ensures one_made { pairs_of 0 result.history ≡ drop (length (W.value one.old).pairs) (W.value one.new).pairs }
    ensures two_made { pairs_of 1 result.history ≡ drop (length (W.value two.old).pairs) (W.value two.new).pairs }
    ensures shared { IsContinued memory.entry result }
{
    match open_table(alloc, memory) {
        Ok((table, seat)) => run_at_table::<Brand, W, R, G>(rt, table, seat, one, two, fuel, gate),
        Err(memory) => memory,
    }
}

/// The same at the table that the room names, each with a port that is made before it.
fn run_at_table<
    'i,
    B: TableBrand + Send,
    W: Worker + Send,
    R: Threads + Wait + Sync,
    G: Gate + Sync,
>(
    rt: &R,
    table: TurnMemory<'i>,
    mut seat: TurnSeat<'i>,
    one: &mut W,
    two: &mut W,
    fuel: usize,
    gate: &G,
) -> SharedMemory<'i>
    requires room { table.shared.table_id ≡ B.table }
    requires seat { IsSeatOf seat table.shared.table_id × (seat.me ≡ (first_view, [])) }
    requires one { fuel ≤ length (W.value one.old).steps + (W.value one.old).spare }
    requires two { fuel ≤ length (W.value two.old).steps + (W.value two.old).spare }
    ensures one_grown { IsGrown fuel (W.value one.old) (W.value one.new) }
    ensures two_grown { IsGrown fuel (W.value two.old) (W.value two.new) }
    ensures one_made { pairs_of 0 result.history ≡ drop (length (W.value one.old).pairs) (W.value one.new).pairs }
    ensures two_made { pairs_of 1 result.history ≡ drop (length (W.value two.old).pairs) (W.value two.new).pairs }
    ensures image { result.image ≡ table.entry.shared.key }
{
    let other = table.shared.split_seat::<TwoSeats>(&mut seat);
    let mut one_port = TurnPort::<B, 0>::new(&table.shared, seat, MOST_ASKS);
    let mut two_port = TurnPort::<B, 1>::new(&table.shared, other, MOST_ASKS);
    drive_both(rt, one, &mut one_port, two, &mut two_port, fuel, gate);
    let mut seat = one_port.into_seat();
    let other = two_port.into_seat();
    table.shared.join_seat::<TwoSeats>(&mut seat, other);
    close_table(table, seat)
}
