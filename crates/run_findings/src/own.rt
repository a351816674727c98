//! Of each step of a run, the last step before it of its stream.

ghost use Rattle.std.specs.Prelude.{◌≡◌, ◌<◌, length, IfOk, IfSome};
ghost use Rattle.run_findings.specs.Own.{AreOwn, IsInRange, number_of, own_at};

use crate::actions::Action;
use crate::links::Latest;
use processor::Step;
use std::alloc::{AllocError, Global};

/// Of each step of a run, the last one before it of its stream.
pub(crate) fn own_links(alloc: Global, actions: &[Action]) -> Result<Vec<Option<usize>>, AllocError>
    ensures { IfOk result (λ links. AreOwn actions.now links.items) }
{
    let mut latest = Latest::new(alloc);
    let mut links = Vec::new(alloc);
    for step in 0..actions.len() {
        let number = number_of(actions[step].stream);
        let before = latest.note(Some(number), step)?;
        links.push(before)?;
    }
    Ok(links)
}

/// The last step before this one of its stream.
pub(crate) fn own_before(actions: &[Action], own: &[Option<usize>], step: usize) -> Option<usize>
    requires step_in { step < length actions.now }
    requires own { AreOwn actions.now own.now }
    ensures is { result ≡ own_at actions.now step }
    ensures below { IfSome result (λ k. k < step) }
{
    own[step]
}

/// A number that no other stream has.
fn number_of(stream: Step) -> u64
    ensures is { result ≡ number_of stream }
    ensures range { IsInRange stream }
{
    u64::from(stream.p) * 256 + u64::from(stream.s)
}
