//! When a port of the turn memory answers that there is no room.
ghost use Rattle.std.specs.Prelude.{◌≡◌, ◌≤◌, []};
ghost use Rattle.memory_lock.specs.Seats.{IsSeatOf, first_view};

use super::limits::{ASKING, request};
use super::runs::image_of;
use memory_lock::{
    Port, SharedMemory, TableBrand, TurnMemory, TurnPort, TurnSeat, TwoSeats, open_table,
};
use std::marker::Brand;
use std::sync::Wait;
use tag_memory::Reply;

/// One request through the port of processor `port`, which says that it is of processor `p`.
#[derive(Clone, Copy)]
struct Ask {
    port: u8,
    p: u8,
    wanted: Option<Reply>,
}

/// Whether the port answers so, and shows from its first refusal on that it was refused.
fn answers<R: Wait, P: Port>(rt: &R, port: &mut P, ask: Ask) -> bool {
    let was_refused = port.refused();
    let reply = port.ask(rt, ask.p, 5, &request()).ok();
    reply == ask.wanted && port.refused() == (was_refused || ask.wanted.is_none())
}

/// Whether the ports of processors 0 and 1 to this table answer so, where each may ask so often.
fn answer_at<'i, B: TableBrand, R: Wait>(
    rt: &R,
    table: TurnMemory<'i>,
    mut seat: TurnSeat<'i>,
    left: u32,
    asks: &[Ask],
) -> bool
    requires room { table.shared.table_id ≡ B.table }
    requires seat { IsSeatOf seat table.shared.table_id × (seat.me ≡ (first_view, [])) }
{
    let other = table.shared.split_seat::<TwoSeats>(&mut seat);
    let mut one = TurnPort::<B, 0>::new(&table.shared, seat, u64::from(left));
    let mut two = TurnPort::<B, 1>::new(&table.shared, other, u64::from(left));
    let mut is_so = !one.refused() && !two.refused();
    for ask in asks {
        let answered = if ask.port == 0 {
            answers(rt, &mut one, *ask)
        } else {
            answers(rt, &mut two, *ask)
        };
        is_so = is_so && answered;
    }
    let _ = one.into_seat();
    let _ = two.into_seat();
    is_so
}

/// The same of a memory with room for so many entries.
fn answer_so<R: AllocGlobal + Wait>(rt: &R, room: usize, left: u32, asks: &[Ask]) -> Option<bool> {
    let image = image_of(rt.alloc(), ".slim 1\n.entry 0\n.entry 0\n", ASKING)?;
    let memory = SharedMemory::new(rt.alloc(), &image, room).ok()?;
    let (table, seat) = open_table(rt.alloc(), memory).ok()?;
    Some(answer_at::<Brand, R>(rt, table, seat, left, asks))
}

/// The memory has room for two entries, whoever makes them.
const OF_ROOM: [Ask; 4] = [
    Ask {
        port: 1,
        p: 1,
        wanted: Some(Reply::Done(0)),
    },
    Ask {
        port: 0,
        p: 0,
        wanted: Some(Reply::Done(3)),
    },
    Ask {
        port: 0,
        p: 0,
        wanted: None,
    },
    Ask {
        port: 1,
        p: 1,
        wanted: None,
    },
];

/// Each port asks for its own processor alone, and what it refuses takes no place of its asks.
const OF_PROCESSORS: [Ask; 6] = [
    Ask {
        port: 0,
        p: 1,
        wanted: None,
    },
    Ask {
        port: 1,
        p: 0,
        wanted: None,
    },
    Ask {
        port: 0,
        p: 2,
        wanted: None,
    },
    Ask {
        port: 1,
        p: 255,
        wanted: None,
    },
    Ask {
        port: 0,
        p: 0,
        wanted: Some(Reply::Done(0)),
    },
    Ask {
        port: 1,
        p: 1,
        wanted: Some(Reply::Done(3)),
    },
];

/// Each port may ask twice.
const OF_ASKS: [Ask; 6] = [
    Ask {
        port: 0,
        p: 0,
        wanted: Some(Reply::Done(0)),
    },
    Ask {
        port: 0,
        p: 0,
        wanted: Some(Reply::Done(3)),
    },
    Ask {
        port: 0,
        p: 0,
        wanted: None,
    },
    Ask {
        port: 1,
        p: 1,
        wanted: Some(Reply::Done(6)),
    },
    Ask {
        port: 1,
        p: 1,
        wanted: Some(Reply::Done(9)),
    },
    Ask {
        port: 1,
        p: 1,
        wanted: None,
    },
];

/// A first request of processor 0, and of processor 1, that is refused.
const OF_ZERO: [Ask; 1] = [Ask {
    port: 0,
    p: 0,
    wanted: None,
}];

const OF_ONE: [Ask; 1] = [Ask {
    port: 1,
    p: 1,
    wanted: None,
}];

#[test]
fn a_port_in_turn_is_refused_at_its_limits(rt: HostRuntime) {
    // for how many entries there is room, how often each port may ask, and what is asked
    for (room, left, asks) in [
        (2, 9, OF_ROOM.as_slice()),
        (0, 9, OF_ZERO.as_slice()),
        (2, 1, OF_PROCESSORS.as_slice()),
        (9, 2, OF_ASKS.as_slice()),
        (9, 0, OF_ONE.as_slice()),
    ] {
        assert!(rt; answer_so(&rt, room, left, asks) == Some(true));
    }
}
