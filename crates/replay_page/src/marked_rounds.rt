//! A round that a page marks.

use crate::runs::push_member;
use lab_json::Object;
use std::alloc::{AllocError, Global};

/// A round at the end of a run: steps that lead from a state back to it, taken once or several times in a row.
#[derive(Clone, Copy, Debug)]
pub struct MarkedRound {
    /// After how many steps it begins first.
    pub after: usize,
    /// How many steps it has.
    pub steps: usize,
    /// How often it is taken.
    pub times: usize,
}

impl MarkedRound {
    /// Adds it after other members of a run's object.
    pub(crate) fn push_member(self, alloc: Global, json: &mut String) -> Result<(), AllocError> {
        let mut fields = Object::new(alloc);
        fields.put_number("after", self.after as u64);
        fields.put_number("steps", self.steps as u64);
        fields.put_number("times", self.times as u64);
        push_member(alloc, json, "round", &fields.whole()?)
    }
}
