//! The port of the turn memory.

ghost use Rattle.std.specs.Prelude.{◌≡◌, ◌≤◌, ◌+◌, false, Some, map};
ghost use Rattle.processor.specs.Histories.{entry_by};
ghost use Rattle.memory_lock.specs.Seats.{IsIdleSeat};

use crate::back_off::BackOff;
use crate::ports::Port;
use crate::turns::asking::ask_in_turn;
use crate::turns::rule::{TurnSeat, TurnTable};
use shared_history::NoRoom;
use std::marker::{Brand, Model, PhantomData};
use std::sync::Wait;
use tag_memory::{Reply, Request};

/// A type that names one table. Of a port that was lent no more is known than its type and what `Port` says, so the
/// type has to say at which table its seat is.
pub trait TableBrand {
    ghost use Rattle.atomic_table.specs.Seated.{TableId};

    /// The table.
    ghost table: { TableId };
}

impl TableBrand for Brand {
    ghost use Rattle.memory_lock.specs.Seats.{no_table};

    ghost table = { no_table };
}

/// A thread's own way to the memory, with a seat at the table of its brand. It asks for processor `N`, 0 or 1, alone,
/// and only so often. Contracts see how often it may still ask, the pairs that its seat made, and whether it was
/// refused.
pub struct TurnPort<'m, 'i, B: TableBrand, const N: u8> {
    table: &'m TurnTable<'i>,
    seat: TurnSeat<'i>,
    left: u64,
    is_refused: bool,
    back_off: BackOff,
    brand: PhantomData<B>,
}

impl<'m, 'i, B: TableBrand, const N: u8> Model for TurnPort<'m, 'i, B, N> {
    ghost use Rattle.std.specs.Prelude.{◌≡◌, ◌≤◌, ◌+◌};
    ghost use Rattle.memory_lock.specs.Seats.{TurnPortValue, IsIdleSeat};

    ghost Value = { TurnPortValue };

    ghost view = { λ a. record { left = a.left; made = a.seat.me.0.own.made; is_refused = a.is_refused } };

    ghost invariant = { λ a. (a.table.now.table_id ≡ B.table) × IsIdleSeat a.seat B.table N
        × (a.seat.me.0.own.asks + a.left ≤ 4294967295) };
}

impl<'m, 'i, B: TableBrand, const N: u8> TurnPort<'m, 'i, B, N> {
    /// A port with this seat, which may ask so often and was not refused yet.
    pub fn new(table: &'m TurnTable<'i>, seat: TurnSeat<'i>, left: u64) -> TurnPort<'m, 'i, B, N>
        requires table { table.now.table_id ≡ B.table }
        requires seat { IsIdleSeat seat B.table N }
        requires few { seat.me.0.own.asks + left ≤ 4294967295 }
        ensures { result ≡ record { left = left; made = seat.entry.me.0.own.made; is_refused = false } }
    {
        TurnPort {
            table,
            seat,
            left,
            is_refused: false,
            back_off: BackOff::new(),
            brand: PhantomData,
        }
    }

    /// Its seat, which made what the port made.
    pub fn into_seat(self) -> TurnSeat<'i>
        ensures seat { IsIdleSeat result B.table N }
        ensures made { result.me.0.own.made ≡ self.entry.made }
    {
        let TurnPort {
            table: _,
            seat,
            left: _,
            is_refused: _,
            back_off: _,
            brand: _,
        } = self;
        seat
    }
}

impl<'m, 'i, B: TableBrand, const N: u8> Port for TurnPort<'m, 'i, B, N> {
    ghost made = { λ a. Some (map (entry_by N) a.made) };

    ghost is_refused = { λ a. a.is_refused };

    fn ask<R: Wait>(&mut self, rt: &R, p: u8, s: u8, request: &Request) -> Result<Reply, NoRoom> {
        if p != N || self.left == 0 {
            self.is_refused = true;
            return Err(NoRoom);
        }
        let reply = ask_in_turn(
            rt,
            self.table,
            &mut self.seat,
            &mut self.back_off,
            p,
            s,
            request,
        );
        self.left -= 1;
        if reply.is_err() {
            self.is_refused = true;
        }
        reply
    }

    fn refused(&self) -> bool {
        self.is_refused
    }
}
