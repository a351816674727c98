//! One processor driven through a port.

ghost use Rattle.std.specs.Prelude.{◌≡◌, ◌≤◌, ◌+◌, true, OnOk, OnErr, length};
ghost use Rattle.shared_history.specs.Parts.{has_finished};
ghost use Rattle.memory_lock.specs.Driving.{IsGrown, HasMade, MayAsk};

use crate::gates::Gate;
use crate::ports::Port;
use processor::{Next, Recorded};
use shared_history::NoRoom;
use std::sync::Wait;

/// Steps a processor until its record has `fuel` steps or no stream of it runs. Each step is of the stream whose turn
/// it is: the least running one above that of the last step, else the least running one. What a step asks goes through
/// the port; the gate is called around it.
///
/// `NoRoom` comes of the port alone, which was refused then; the step that asked was not taken, and is the next in turn.
pub fn drive<R: Wait, P: Port, G: Gate, const S: usize>(
    rt: &R,
    worker: &mut Recorded<S>,
    port: &mut P,
    fuel: usize,
    gate: &G,
) -> Result<(), NoRoom>
    requires room { fuel ≤ length worker.old.steps + worker.old.spare }
    ensures grown { IsGrown fuel worker.old worker.new }
    ensures finished { OnOk result (has_finished fuel worker.new ≡ true) }
    ensures made { HasMade worker.old worker.new (P.made port.old) (P.made port.new) }
    ensures keeps { OnOk result (P.is_refused port.new ≡ P.is_refused port.old) }
    ensures refuses { OnErr result (P.is_refused port.new ≡ true) }
    ensures asks { OnErr result (MayAsk fuel worker.new) }
{
    let from = worker.steps().len();
    for _ in from..fuel {
        let p = worker.number();
        let Some(s) = worker.turn() else {
            return Ok(());
        };
        if let Some(short) = worker.next_short(s) {
            gate.local(rt, p, s);
            worker.finish_short(s, &short);
            continue;
        }
        let step = worker.next_step(s);
        match &step.next {
            Next::Skip => unreachable!(),
            Next::Local => {
                gate.local(rt, p, s);
                worker.finish_local(s, &step);
            }
            Next::Ask(request) => {
                gate.before(rt, p, s);
                let reply = port.ask(rt, p, s, request)?;
                gate.after(rt, p, s);
                worker.finish_reply(s, &step, request, reply);
            }
        }
    }
    Ok(())
}
