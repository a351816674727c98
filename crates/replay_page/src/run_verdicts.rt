//! How the end of a run was judged.

use crate::runs::push_member;
use serde_json::Value;
use std::alloc::{AllocError, Global};

/// How the end of a run was judged.
#[derive(Clone, Copy, Debug, PartialEq, Eq)]
pub enum RunVerdict<'a> {
    /// Nothing was expected of it.
    NotJudged,
    /// It is as expected.
    Expected,
    /// It is not: a deadlock, a trap, or a line that it does not meet.
    NotExpected {
        /// That line; None where no line says it.
        missed: Option<&'a str>,
    },
}

/// How the end of a run was judged, and whether it is one at which all may wait.
#[derive(Clone, Copy, Debug, PartialEq, Eq)]
pub struct JudgedRun<'a> {
    /// How it was judged.
    pub verdict: RunVerdict<'a>,
    /// Whether streams run that can't go on, and each of them may wait where it stands: so it is no deadlock.
    pub may_wait: bool,
}

impl JudgedRun<'_> {
    /// Adds it after other members of a run's object; nothing of an end of which nothing was expected.
    pub(crate) fn push_members(self, alloc: Global, json: &mut String) -> Result<(), AllocError> {
        self.verdict.push_members(alloc, json)?;
        if self.may_wait {
            push_member(alloc, json, "may_wait", &Value::Bool(true))?;
        }
        Ok(())
    }
}

impl RunVerdict<'_> {
    /// Adds it after other members; nothing where nothing was expected.
    fn push_members(self, alloc: Global, json: &mut String) -> Result<(), AllocError> {
        match self {
            RunVerdict::NotJudged => Ok(()),
            RunVerdict::Expected => push_member(alloc, json, "expected", &Value::Bool(true)),
            RunVerdict::NotExpected { missed } => {
                push_member(alloc, json, "expected", &Value::Bool(false))?;
                let line = match missed {
                    Some(words) => Value::String(String::from_str(alloc, words)?),
                    None => Value::Null,
                };
                push_member(alloc, json, "missed", &line)
            }
        }
    }
}
