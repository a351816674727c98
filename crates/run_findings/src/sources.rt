//! Of each step of a run, which registers of its stream hold before it what was computed from some read.

ghost use Rattle.std.specs.Prelude.{◌≡◌, ◌<◌, length, IfOk};
ghost use Rattle.run_findings.specs.Own.{AreOwn};
ghost use Rattle.run_findings.specs.Sources.{AreSources, AreAll, AreAllAt};

use crate::actions::Action;
use crate::marks::Marks;
use crate::own::{own_before, own_links};
use std::alloc::{AllocError, Global};

/// What is known of each step, for going back from it over the steps of its stream.
#[derive(Drop)]
pub(crate) struct Sources {
    /// The last step before it of its stream.
    pub(crate) own: Vec<Option<usize>>,
    /// The marks before it, of whatever its stream read or heard. What is not marked was computed from no read.
    any: Vec<Marks>,
}

impl Sources {
    /// Those of a run with these steps.
    pub(crate) fn of(alloc: Global, actions: &[Action]) -> Result<Sources, AllocError>
        ensures { IfOk result (λ sources. AreSources actions.now sources) }
    {
        let own = own_links(alloc, actions)?;
        let any = marks_of_all(alloc, actions, &own)?;
        Ok(Sources { own, any })
    }

    /// The marks before a step, of whatever its stream read or heard.
    pub(crate) fn marks_before(&self, actions: &[Action], step: usize) -> Marks
        requires step_in { step < length actions.now }
        requires sources { AreSources actions.now self.now }
        ensures { AreAllAt actions.now step result }
    {
        self.any[step]
    }
}

/// Of each step of a run, the marks before it of whatever its stream read or heard.
fn marks_of_all(
    alloc: Global,
    actions: &[Action],
    own: &[Option<usize>],
) -> Result<Vec<Marks>, AllocError>
    requires own { AreOwn actions.now own.now }
    ensures { IfOk result (λ any. AreAll actions.now (length actions.now) any.items) }
{
    let mut any = Vec::new(alloc);
    for step in 0..actions.len() {
        let marks = marks_at(actions, own, &any, step);
        any.push(marks)?;
    }
    Ok(any)
}

/// Those before one step, by those before the earlier ones.
fn marks_at(actions: &[Action], own: &[Option<usize>], any: &[Marks], step: usize) -> Marks
    requires step_in { step < length actions.now }
    requires own { AreOwn actions.now own.now }
    requires any { AreAll actions.now step any.now }
    ensures { AreAllAt actions.now step result }
{
    match own_before(actions, own, step) {
        Some(before) => any[before].after_deed(&actions[before].deed, true),
        None => Marks::NONE,
    }
}
