//! Whether the steps of a run meet a line about who does the work.

ghost use Rattle.std.specs.Prelude.{◌≡◌, not};
ghost use Rattle.std.specs.List.{position, list_any};
ghost use Rattle.work_rules.specs.Work.{op_stores, stores_between, stored_by, has_stored, storing_streams, is_met, first_missed};

use crate::work_rule::WorkRule;
use processor::Step;
use run_findings::Action;
use tag_memory::MemOp;

/// The first of some lines, counted from 0, that steps with these actions don't meet; None where they meet all.
pub fn first_missed(actions: &[Action], rules: &[WorkRule]) -> Option<usize>
    ensures { result ≡ first_missed actions.now rules.now }
{
    rules.iter().position(
        |rule: &WorkRule| -> bool
            ensures { result ≡ not (is_met actions.entry.now rule.now) }
        { !is_met(actions, *rule) },
    )
}

/// Whether steps with these actions meet a line.
pub fn is_met(actions: &[Action], rule: WorkRule) -> bool
    ensures { result ≡ is_met actions.now rule }
{
    match rule {
        WorkRule::Writes { stream, address } => has_stored(actions, stream, address, address),
        WorkRule::AtLeast { count, first, last } => count <= storing_streams(actions, first, last),
    }
}

/// How many streams store to some word of a range: of each its last such step counts.
fn storing_streams(actions: &[Action], first: u64, last: u64) -> usize
    ensures { result ≡ storing_streams first last actions.now }
{
    let mut count = 0;
    let mut rest = actions;
    while let [action, later @ ..] = rest {
        if stores_between(action, first, last) && !has_stored(later, action.stream, first, last) {
            count += 1;
        }
        rest = later;
    }
    count
}

/// Whether a stream stores to some word of a range.
fn has_stored(actions: &[Action], stream: Step, first: u64, last: u64) -> bool
    ensures { result ≡ has_stored stream first last actions.now }
{
    actions.iter().any(
        |action: &Action| -> bool
            ensures { result ≡ stored_by stream first last action.now }
        { action.is_by(stream) && stores_between(action, first, last) },
    )
}

/// Whether a step stores to some word of a range.
fn stores_between(action: &Action, first: u64, last: u64) -> bool
    ensures { result ≡ stores_between first last action.now.access }
{
    match action.access {
        Some(access) => op_stores(access.op) && first <= access.address && access.address <= last,
        None => false,
    }
}

/// Whether an operation stores a value: STORE or FADD.
fn op_stores(op: MemOp) -> bool
    ensures { result ≡ op_stores op }
{
    match op {
        MemOp::Store | MemOp::Fadd => true,
        MemOp::Load | MemOp::TagGet | MemOp::TagSet | MemOp::Purge => false,
    }
}
