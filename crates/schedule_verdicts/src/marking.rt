//! Marks of claims, as a walk through the worlds of a space makes them.

ghost use Rattle.std.specs.Prelude.{◌≡◌, ◌<◌, map, IfOk, OnOk, Err};
ghost use Rattle.schedule_verdicts.specs.ClaimMarks.{marks_for, AreOfSpace, AreJudgedBy};

use crate::claim_marks::ClaimMarks;
use crate::walks::Walk;
use busy_streams::space::Space;
use claims::{Claim, Scope};
use machine::{LoadFault, Machine};
use std::alloc::{AllocError, Global};

/// What is known of claims and the worlds of a space, to ask whether they hold. If one has to hold of each world or of none,
/// machines go along the edges of the space: each world costs a step, and a copy of a machine where two ways lead on.
///
/// `Streams` only where the image's slim is above `S`.
pub fn marks_of_kept<'s, 'i, const S: usize>(
    alloc: Global,
    space: &'s Space<'i>,
    claims: &'s [Claim],
) -> Result<Vec<ClaimMarks<'s, 'i>>, LoadFault>
    ensures marks { IfOk result (λ v. v.items ≡ map (marks_for space.entry.now) claims.entry.now) }
    ensures streams { result ≡ Err LoadFault.Streams → S < space.entry.now.image.slim }
{
    let is_asked = claims.iter().any(|claim| claim.scope != Scope::Once);
    marks_if::<S>(alloc, space, claims, is_asked)
}

/// What is known of claims and the worlds of a space, to ask whether these show them: the same if one has to hold of one
/// world at least.
///
/// `Streams` only where the image's slim is above `S`.
pub fn marks_of_shown<'s, 'i, const S: usize>(
    alloc: Global,
    space: &'s Space<'i>,
    claims: &'s [Claim],
) -> Result<Vec<ClaimMarks<'s, 'i>>, LoadFault>
    ensures marks { IfOk result (λ v. v.items ≡ map (marks_for space.entry.now) claims.entry.now) }
    ensures streams { result ≡ Err LoadFault.Streams → S < space.entry.now.image.slim }
{
    let is_asked = claims.iter().any(|claim| claim.scope == Scope::Once);
    marks_if::<S>(alloc, space, claims, is_asked)
}

/// What is known of claims and the worlds of a space, by a walk if that is asked for, else nothing.
fn marks_if<'s, 'i, const S: usize>(
    alloc: Global,
    space: &'s Space<'i>,
    claims: &'s [Claim],
    is_asked: bool,
) -> Result<Vec<ClaimMarks<'s, 'i>>, LoadFault>
    ensures marks { IfOk result (λ v. v.items ≡ map (marks_for space.entry.now) claims.entry.now) }
    ensures streams { result ≡ Err LoadFault.Streams → S < space.entry.now.image.slim }
{
    let mut marks = unknown_marks(alloc, space, claims)?;
    if is_asked {
        mark_all::<S>(alloc, space, &mut marks)?;
    }
    Ok(marks)
}

/// Of each of some claims nothing yet.
fn unknown_marks<'s, 'i>(
    alloc: Global,
    space: &'s Space<'i>,
    claims: &'s [Claim],
) -> Result<Vec<ClaimMarks<'s, 'i>>, AllocError>
    ensures { IfOk result (λ v. v.items ≡ map (marks_for space.entry.now) claims.entry.now) }
{
    let mut marks = Vec::new(alloc);
    for place in 0..claims.len() {
        marks.push(ClaimMarks::unknown(alloc, space, &claims[place])?)?;
    }
    Ok(marks)
}

/// Marks the worlds that a walk through a space comes to.
fn mark_all<'i, const S: usize>(
    alloc: Global,
    space: &Space<'i>,
    marks: &mut [ClaimMarks<'_, '_>],
) -> Result<(), LoadFault>
    requires { AreOfSpace space.now marks.old }
    ensures marks { OnOk result (marks.new ≡ marks.old) }
    ensures streams { result ≡ Err LoadFault.Streams → S < space.now.image.slim }
{
    let mut walk = Walk::<S>::new(alloc, space)?;
    for visited in 0..space.len() {
        mark_at(marks, walk.place(), walk.machine());
        if !walk.go_on(alloc)? {
            return Ok(());
        }
    }
    Ok(())
}

/// Marks the world at a place, which stands for that of this machine.
fn mark_at<const S: usize>(marks: &mut [ClaimMarks<'_, '_>], place: usize, machine: &Machine<'_, S>)
    requires { AreJudgedBy place machine.now.world marks.old }
    ensures { marks.new ≡ marks.old }
{
    for number in 0..marks.len() {
        marks[number].judge(place, machine);
    }
}
