//! Two processors driven at once.

ghost use Rattle.std.specs.Prelude.{◌≡◌, ◌≤◌, ◌+◌, length};
ghost use Rattle.memory_lock.specs.Driving.{IsGrown, HasMade};

use crate::gates::Gate;
use crate::ports::Port;
use crate::threads::Worker;
use std::sync::Wait;
use std::thread::{Threads, join_mut};

/// Drives each by its port, in a thread of its own; where none can be started, one after the other.
pub(crate) fn drive_both<
    W: Worker + Send,
    P: Port + Send,
    Q: Port + Send,
    R: Threads + Wait + Sync,
    G: Gate + Sync,
>(rt: &R, one: &mut W, one_port: &mut P, two: &mut W, two_port: &mut Q, fuel: usize, gate: &G)
    requires one { fuel ≤ length (W.value one.old).steps + (W.value one.old).spare }
    requires two { fuel ≤ length (W.value two.old).steps + (W.value two.old).spare }
    ensures one_grown { IsGrown fuel (W.value one.old) (W.value one.new) }
    ensures one_made { HasMade (W.value one.old) (W.value one.new) (P.made one_port.old) (P.made one_port.new) }
    ensures two_grown { IsGrown fuel (W.value two.old) (W.value two.new) }
    ensures two_made { HasMade (W.value two.old) (W.value two.new) (Q.made two_port.old) (Q.made two_port.new) }
{
    let mut first = ||
        requires { fuel ≤ length (W.value one.now).steps + (W.value one.now).spare }
        ensures grown { IsGrown fuel (W.value one.entry.now) (W.value one.exit.now) }
        ensures made { HasMade (W.value one.entry.now) (W.value one.exit.now)
            (P.made one_port.entry.now) (P.made one_port.exit.now) }
    { one.go(rt, one_port, fuel, gate) };
    let mut second = ||
        requires { fuel ≤ length (W.value two.now).steps + (W.value two.now).spare }
        ensures grown { IsGrown fuel (W.value two.entry.now) (W.value two.exit.now) }
        ensures made { HasMade (W.value two.entry.now) (W.value two.exit.now)
            (Q.made two_port.entry.now) (Q.made two_port.exit.now) }
    { two.go(rt, two_port, fuel, gate) };
    join_mut(rt, &mut first, &mut second);
}
