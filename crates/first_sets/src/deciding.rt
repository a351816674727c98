//! Whether the steps of a set are apart from those of all others, of a machine.

ghost use Rattle.std.specs.Prelude.{◌≡◌, false, Some, IsTrue, IfSome};
ghost use Rattle.std.specs.List.{Contains};
ghost use Rattle.tag_memory.specs.Unforwarded.{IsUnforwarded};
ghost use Rattle.stream_core.specs.Streams.{StreamValue};
ghost use Rattle.stream_core.specs.declared.steps.Outcome.TheVariants as outcome;
ghost use Rattle.processor.specs.World.{outcome_of};
ghost use Rattle.processor.specs.declared.steps.Step.{Step};
ghost use Rattle.waiting.specs.Running.{runs_in};
ghost use Rattle.local_steps.specs.NeverAsking.{AsksForNone};
ghost use Rattle.touched_words.specs.ClosedTables.{is_quiet_add};
ghost use Rattle.commuting_requests.specs.RequestSteps.{IsRequestStep};
ghost use Rattle.first_sets.specs.ApartSets.{is_blocked, table_at, KeepsOff, IsMember, IsApartSet};

use machine::Machine;
use processor::Step;
use stream_core::{Control, Fetch, Status};
use tag_memory::{Reply, Request};
use touched_words::TouchTable;

/// Whether the steps of a set are apart from those of all others in a machine's world, by the tables of its processors:
/// each makes a request that no other stream comes to meet, but for adds of which nobody reads what they load, and one of
/// them is not Blocked. `running` has the steps of all streams that run.
pub fn is_apart_set<const S: usize>(
    machine: &Machine<'_, S>,
    tables: &[TouchTable],
    running: &[Step],
    set: &[Step],
) -> bool
    requires unforwarded { IsUnforwarded machine.now.world.memory }
    requires running { (t : Step) → IsTrue (runs_in machine.now.world t) → Contains running.now t }
    ensures { IsTrue result → IsApartSet machine.now.image tables.now machine.now.world set.now }
{
    some_goes(machine, set) && are_members(machine, tables, running, set)
}

/// Whether a step of the set is not Blocked.
fn some_goes<const S: usize>(machine: &Machine<'_, S>, set: &[Step]) -> bool
    ensures { IsTrue result → (t : Step)
        × (Contains set.now t × (¬ (outcome_of machine.now.image machine.now.world t ≡ outcome.Blocked))) }
{
    for step in set {
        if goes(machine, *step) {
            return true;
        }
    }
    false
}

/// Whether a step makes a request and is not Blocked.
fn goes<const S: usize>(machine: &Machine<'_, S>, step: Step) -> bool
    ensures { IsTrue result → ¬ (outcome_of machine.now.image machine.now.world step ≡ outcome.Blocked) }
{
    match request_of(machine, step) {
        None => false,
        Some(request) => !is_blocked(machine.ending(&request).reply),
    }
}

/// Whether a reply is that the reference is blocked.
fn is_blocked(reply: Reply) -> bool
    ensures { result ≡ is_blocked reply }
{
    match reply {
        Reply::Blocked(_) => true,
        Reply::Done(_) | Reply::Trap(_, _) => false,
    }
}

/// The request that a step makes, where it executes an instruction that makes one and asks for no stream.
pub(crate) fn request_of<const S: usize>(machine: &Machine<'_, S>, step: Step) -> Option<Request>
    ensures { IfSome result (λ q. (s : StreamValue) × IsRequestStep machine.now.image machine.now.world step s (Some q)) }
{
    let image = machine.image();
    let stream = machine.stream(step.p, step.s)?;
    let Fetch::Instruction(insn) = stream.fetch(image.profile(), image.program()) else {
        return None;
    };
    if asks_for_stream(stream.control_of(&insn)) {
        return None;
    }
    stream.request(&insn)
}

/// Whether an instruction asks its processor for a stream.
fn asks_for_stream(control: Control) -> bool
    ensures { result ≡ false → AsksForNone control }
{
    match control {
        Control::Reserve(_) | Control::Create(_) => true,
        Control::Plain | Control::Quit | Control::QuitKeep => false,
    }
}

/// Whether each step of the set makes a request that the streams of no other step come to meet.
fn are_members<const S: usize>(
    machine: &Machine<'_, S>,
    tables: &[TouchTable],
    running: &[Step],
    set: &[Step],
) -> bool
    requires running { (t : Step) → IsTrue (runs_in machine.now.world t) → Contains running.now t }
    ensures { IsTrue result → (t : Step) → Contains set.now t
        → IsMember machine.now.image tables.now machine.now.world set.now t }
{
    for step in set {
        if !is_member(machine, tables, running, set, *step) {
            return false;
        }
    }
    true
}

/// The same of one step.
fn is_member<const S: usize>(
    machine: &Machine<'_, S>,
    tables: &[TouchTable],
    running: &[Step],
    set: &[Step],
    step: Step,
) -> bool
    requires running { (t : Step) → IsTrue (runs_in machine.now.world t) → Contains running.now t }
    ensures { IsTrue result → IsMember machine.now.image tables.now machine.now.world set.now step }
{
    match request_of(machine, step) {
        None => false,
        Some(request) => {
            let is_quiet = is_quiet_add(machine, tables, step, &request);
            are_kept_off(machine, tables, running, set, &request, is_quiet)
        }
    }
}

/// Whether the request that a step makes is an add that loads what nobody reads.
fn is_quiet_add<const S: usize>(
    machine: &Machine<'_, S>,
    tables: &[TouchTable],
    step: Step,
    request: &Request,
) -> bool
    ensures { (s : StreamValue) → IsRequestStep machine.now.image machine.now.world step s (Some request.now)
        → result ≡ is_quiet_add (table_at tables.now step.p) s.ssw.pc request.now }
{
    let _image = machine.image();
    let Some(stream) = machine.stream(step.p, step.s) else {
        return false;
    };
    let Some(table) = tables.get(usize::from(step.p)) else {
        return false;
    };
    request.is_add() && table.is_unread(stream.ssw().pc)
}

/// Whether each stream outside of the set keeps off a request, which is an add that loads what nobody reads if `is_quiet`
/// says so.
fn are_kept_off<const S: usize>(
    machine: &Machine<'_, S>,
    tables: &[TouchTable],
    running: &[Step],
    set: &[Step],
    request: &Request,
    is_quiet: bool,
) -> bool
    requires running { (t : Step) → IsTrue (runs_in machine.now.world t) → Contains running.now t }
    ensures { IsTrue result → (u : Step) → ¬ (Contains set.now u)
        → KeepsOff tables.now machine.now.world u is_quiet request.now }
{
    for step in running {
        if !is_kept_off(machine, tables, set, request, is_quiet, *step) {
            return false;
        }
    }
    true
}

/// Whether a stream keeps off a request, or its step is one of the set.
fn is_kept_off<const S: usize>(
    machine: &Machine<'_, S>,
    tables: &[TouchTable],
    set: &[Step],
    request: &Request,
    is_quiet: bool,
    step: Step,
) -> bool
    ensures { IsTrue result → ¬ (Contains set.now step)
        → KeepsOff tables.now machine.now.world step is_quiet request.now }
{
    has(set, step) || keeps_off(machine, tables, step, request, is_quiet)
}

/// Whether a step is one of a set.
fn has(set: &[Step], step: Step) -> bool
    ensures { IsTrue result → Contains set.now step }
{
    for other in set {
        if *other == step {
            return true;
        }
    }
    false
}

/// Whether a stream keeps off a request: it does not run, or stands at a closed place, from which its processor's table says
/// that the request is passed.
fn keeps_off<const S: usize>(
    machine: &Machine<'_, S>,
    tables: &[TouchTable],
    step: Step,
    request: &Request,
    is_quiet: bool,
) -> bool
    ensures { IsTrue result → KeepsOff tables.now machine.now.world step is_quiet request.now }
{
    let _image = machine.image();
    let Some(stream) = machine.stream(step.p, step.s) else {
        return true;
    };
    if stream.status() != Status::Running {
        return true;
    }
    match tables.get(usize::from(step.p)) {
        None => false,
        Some(table) => {
            table.is_standing(stream) && table.is_passed(stream.ssw().pc, request, is_quiet)
        }
    }
}
