//! Which line of a file says what an end misses, or what a world breaks.

use expectation_files::{Requirements, WrittenLine};
use lab_ends::broken_line;
use lab_json::{Fields, line_value};
use program_searches::ends_of_space::SpaceEnd;
use serde_json::Value;
use std::alloc::{AllocError, Global};

/// The lines of a file that says what is expected, by what was read of them; none where there is no file.
#[derive(Clone, Copy)]
pub struct ExpectedLines<'a> {
    /// What was read.
    pub required: &'a Requirements,
}

impl ExpectedLines<'_> {
    /// Puts the line of the expectation at a place as `missed`; null where there is none.
    pub fn put_missed(
        self,
        alloc: Global,
        fields: &mut Fields,
        missed: Option<usize>,
    ) -> Result<(), AllocError> {
        serde_json::put(fields, alloc, "missed", self.missed_value(alloc, missed)?)
    }

    /// Puts the line of the claim at a place as `claim`; null where there is none.
    pub fn put_claim(
        self,
        alloc: Global,
        fields: &mut Fields,
        claim: Option<usize>,
    ) -> Result<(), AllocError> {
        let line = claim.and_then(|place| self.required.claim_lines().get(place));
        serde_json::put(fields, alloc, "claim", value_of_line(alloc, line)?)
    }

    /// The line of the expectation at a place; null where there is none.
    pub fn missed_value(self, alloc: Global, missed: Option<usize>) -> Result<Value, AllocError> {
        let line = missed.and_then(|place| self.required.end_lines().get(place));
        value_of_line(alloc, line)
    }

    /// The claim that is broken on the way to an end, or the line that its worlds break; null where they break none.
    pub fn broken_value(self, alloc: Global, end: &SpaceEnd) -> Result<Value, AllocError> {
        match broken_line(self.required, end.kind) {
            Some(line) => line_value(alloc, line.number, line.words),
            None => {
                let line = end
                    .broken
                    .and_then(|place| self.required.claim_lines().get(place));
                value_of_line(alloc, line)
            }
        }
    }
}

/// A line with its number; null where there is none.
fn value_of_line(alloc: Global, line: Option<&WrittenLine>) -> Result<Value, AllocError> {
    match line {
        Some(line) => line_value(alloc, line.number, &line.words),
        None => Ok(Value::Null),
    }
}
