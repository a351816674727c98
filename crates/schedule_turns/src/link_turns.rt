//! Turns as in a link to a page.

ghost use Rattle.std.specs.Prelude.{◌≡◌, ◌++◌, OnOk, string_bytes};
ghost use Rattle.std.specs.List.{flat_map};
ghost use Rattle.schedule_turns.specs.LinkTurns.{link_turn, next_link_turn, link_turns};

use crate::turns::Turn;
use std::alloc::AllocError;
use std::fmt::Write;

/// Adds turns as in a link to a page that opens after them, `0.0x2,1.0` (docs/PLAY.md, "The data").
pub fn push_link_turns(out: &mut String, turns: &[Turn]) -> Result<(), AllocError>
    ensures { OnOk result (string_bytes out.new ≡ string_bytes out.old ++ link_turns turns.now) }
{
    let Some(first) = turns.first() else {
        return Ok(());
    };
    push_link_turn(out, *first)?;
    let (_, others) = turns.split_at(1);
    push_others(out, others)
}

/// Adds turns, each after a comma.
fn push_others(out: &mut String, turns: &[Turn]) -> Result<(), AllocError>
    ensures { OnOk result (string_bytes out.new ≡ string_bytes out.old ++ flat_map next_link_turn turns.now) }
{
    for turn in turns {
        out.push_str(",")?;
        push_link_turn(out, *turn)?;
    }
    Ok(())
}

/// Adds a turn: processor and stream, and how often, if more than once.
#[tactic(auto, unfolding(crate::specs::LinkTurns::link_turn))]
fn push_link_turn(out: &mut String, turn: Turn) -> Result<(), AllocError>
    ensures { OnOk result (string_bytes out.new ≡ string_bytes out.old ++ link_turn turn) }
{
    let p = turn.stream.p;
    let s = turn.stream.s;
    let count = turn.count;
    if count > 1 {
        write!(out, "{p}.{s}x{count}")
    } else {
        write!(out, "{p}.{s}")
    }
}
