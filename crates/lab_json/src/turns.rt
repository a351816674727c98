//! Schedules.

use crate::values::List;
use processor::Step;
use serde_json::Value;
use std::alloc::{AllocError, Global};

/// A schedule: of each stream that takes steps in a row its processor, its own number, and how many.
pub fn turns_value(alloc: Global, steps: &[Step]) -> Result<Value, AllocError> {
    let mut turns = List::new(alloc);
    let mut at: usize = 0;
    for _ in 0..steps.len() {
        let Some(first) = steps.get(at) else {
            break;
        };
        let rest = steps.get(at..).unwrap_or(&[]);
        let count = rest.iter().take_while(|step| **step == *first).count();
        turns.put(turn_value(alloc, *first, count));
        at = at.saturating_add(count.max(1));
    }
    turns.whole()
}

/// So many steps of a stream.
fn turn_value(alloc: Global, step: Step, count: usize) -> Result<Value, AllocError> {
    let mut parts = List::new(alloc);
    parts.put_number(u64::from(step.p));
    parts.put_number(u64::from(step.s));
    parts.put_number(count as u64);
    parts.whole()
}
