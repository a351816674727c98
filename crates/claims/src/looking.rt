//! At which places of a program claims look.

ghost use Rattle.std.specs.Prelude.{◌≡◌, ◌≤◌, ℕ, false, slice_index_or, IsTrue, IfOk, OnOk};
ghost use Rattle.std.specs.List.{Contains};
ghost use Rattle.claims.specs.Looking.{is_in_range, is_in_groups, form_looks_at, is_looked_at, form_looks_at_word};
ghost use Rattle.claims.specs.Looking.{is_word_looked_at};

use crate::claim::{Claim, ClaimForm, StreamGroup};
use std::alloc::{AllocError, Global};

/// At which places of a program some claims look: true at each place that a range of one of them has. Past the end of
/// the list they look at none, and where they speak of words alone it is empty.
pub fn places_looked_at(alloc: Global, claims: &[Claim]) -> Result<Vec<bool>, AllocError>
    ensures { IfOk result (λ v. (k : ℕ) → slice_index_or v.items k false ≡ is_looked_at claims.now k) }
{
    let end = end_of_ranges(claims);
    let mut places = Vec::new(alloc);
    for place in 0..end {
        places.push(is_looked_at(claims, place))?;
    }
    Ok(places)
}

/// The byte addresses of the words at which some claims look: all of them.
pub fn words_looked_at(alloc: Global, claims: &[Claim]) -> Result<Vec<u64>, AllocError>
    ensures { IfOk result (λ v. (a : ℕ) → IsTrue (is_word_looked_at claims.now a) → Contains v.items a) }
{
    let mut words = Vec::new(alloc);
    for claim in claims {
        add_word(&mut words, &claim.form)?;
    }
    Ok(words)
}

/// Adds the words at which a form of claim looks.
fn add_word(words: &mut Vec<u64>, form: &ClaimForm) -> Result<(), AllocError>
    ensures more { OnOk result ((a : ℕ) → Contains words.old.items a → Contains words.new.items a) }
    ensures added { OnOk result ((a : ℕ) → IsTrue (form_looks_at_word a form.now) → Contains words.new.items a) }
{
    match form {
        ClaimForm::Word { address, .. } => {
            words.push(*address)?;
            Ok(())
        }
        ClaimForm::Compared { address, other, .. } => {
            words.push(*address)?;
            words.push(*other)?;
            Ok(())
        }
        ClaimForm::Streams { .. } => Ok(()),
    }
}

/// A place from which on no range of some claims has any.
fn end_of_ranges(claims: &[Claim]) -> usize
    ensures { (k : ℕ) → result ≤ k → is_looked_at claims.now k ≡ false }
{
    let mut end = 0;
    for claim in claims {
        end = end_of_range(&claim.form).max(end);
    }
    end
}

/// The same of the ranges of one.
fn end_of_range(form: &ClaimForm) -> usize
    ensures { (k : ℕ) → result ≤ k → form_looks_at k form.now ≡ false }
{
    match form {
        ClaimForm::Word { .. } | ClaimForm::Compared { .. } => 0,
        ClaimForm::Streams { groups, .. } => end_of_groups(groups),
    }
}

/// The same of the ranges of some groups.
fn end_of_groups(groups: &[StreamGroup]) -> usize
    ensures { (k : ℕ) → result ≤ k → is_in_groups k groups.now ≡ false }
{
    let mut end = 0;
    for group in groups {
        end = (group.last as usize + 1).max(end);
    }
    end
}

/// Whether one of some claims looks at a place.
fn is_looked_at(claims: &[Claim], place: usize) -> bool
    ensures { result ≡ is_looked_at claims.now place }
{
    claims.iter().any(
        |claim: &Claim| -> bool
            ensures { result ≡ form_looks_at place claim.now.form }
        { form_looks_at(&claim.form, place) },
    )
}

/// Whether one of the ranges of a form of claim has a place.
fn form_looks_at(form: &ClaimForm, place: usize) -> bool
    ensures { result ≡ form_looks_at place form.now }
{
    match form {
        ClaimForm::Word { .. } | ClaimForm::Compared { .. } => false,
        ClaimForm::Streams { groups, .. } => is_in_groups(groups, place),
    }
}

/// Whether the range of one of some groups has a place.
fn is_in_groups(groups: &[StreamGroup], place: usize) -> bool
    ensures { result ≡ is_in_groups place groups.now }
{
    groups.iter().any(
        |group: &StreamGroup| -> bool
            ensures { result ≡ is_in_range place group.now }
        { is_in_range(group, place) },
    )
}

/// Whether the range of a group has a place.
fn is_in_range(group: &StreamGroup, place: usize) -> bool
    ensures { result ≡ is_in_range place group.now }
{
    group.first as usize <= place && place <= group.last as usize
}
