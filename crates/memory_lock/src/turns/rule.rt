//! The rule of the table, and what each step at it shows.

use crate::turns::views::View;
use atomic_table::{Join, Play, Seat, Shared, Split, Table, TableRule};
use image_file::Image;
use shared_history::SharedMemory;
use std::alloc::Global;

/// The rule: tickets are served one after the other, and the memory is with the call whose ticket is served, or in
/// the slot; its history is what the two processors made, and its image is the one that the table was made for.
pub struct Tickets;

impl<'i> TableRule<Option<SharedMemory<'i>>, View, Image> for Tickets {
    ghost use Rattle.memory_lock.specs.Seats.{first_view};
    ghost use Rattle.memory_lock.specs.Tickets.{IsByTickets};

    ghost holds = { λ image s. IsByTickets image s };

    ghost first = { λ _. first_view };
}

/// A ticket is drawn.
pub struct Draw;

impl<'i> Play<Option<SharedMemory<'i>>, View> for Draw {
    ghost use Rattle.memory_lock.specs.Seats.{IsDraw};

    ghost then = { IsDraw };
}

/// The ticket that is served is looked at; where it is the seat's own, the memory's slot is taken.
pub struct Poll;

impl<'i> Play<Option<SharedMemory<'i>>, View> for Poll {
    ghost use Rattle.memory_lock.specs.Seats.{IsPoll};

    ghost then = { IsPoll };
}

/// The next ticket is served, and the slot is released.
pub struct Raise;

impl<'i> Play<Option<SharedMemory<'i>>, View> for Raise {
    ghost use Rattle.memory_lock.specs.Seats.{IsRaise};

    ghost then = { IsRaise };
}

/// A seat for both processors is cut into one for each, and two are put together.
pub struct TwoSeats;

impl Split<View> for TwoSeats {
    ghost use Rattle.memory_lock.specs.Seats.{own_view, other_view};

    ghost left = { own_view };

    ghost right = { other_view };
}

impl Join<View> for TwoSeats {
    ghost use Rattle.memory_lock.specs.Seats.{both_views, spent_view};

    ghost both = { both_views };

    ghost spent = { spent_view };
}

/// A seat at the table.
pub type TurnSeat<'i> = Seat<Option<SharedMemory<'i>>, View>;

/// The table as threads share it, made for one image.
pub type TurnTable<'i> = Shared<Option<SharedMemory<'i>>, View, Image, Tickets>;

/// The table.
pub type TurnMemory<'i> = Table<Option<SharedMemory<'i>>, View, Image, Tickets, Global>;
