//! Parts of a class.

ghost use Rattle.std.specs.Prelude.{◌≡◌, ◌<◌, ◌≤◌, ◌↔◌, IsTrue, IfSome, IfOk};
ghost use Rattle.class_results.specs.OneCall.{judges_place, judged_in};
ghost use Rattle.class_results.specs.Parts.{IsInPart};

use std::alloc::{AllocError, Global};

/// The most parts of a class.
const MOST_PARTS: usize = 1_000_000;

/// One of so many parts of a class. The submissions of the sorted list are dealt out in turn: the first to part 1, the
/// next to part 2, and after the last part to part 1 again. So each submission is in one part, and in no other.
#[derive(Clone, Copy, Debug, PartialEq, Eq)]
pub struct ClassPart {
    /// The number of the part, from 1 to `count`.
    pub number: usize,
    /// How many parts there are, at least 1.
    pub count: usize,
}

impl ClassPart {
    /// The part that is written `I/N`; None of another text, or where I is not from 1 to N, or N more than a million.
    pub fn of_text(text: &str) -> Option<ClassPart>
        ensures from { IfSome result (λ part. 0 < part.number) }
        ensures to { IfSome result (λ part. part.number ≤ part.count) }
        ensures most { IfSome result (λ part. part.count ≤ 1000000) }
    {
        let (number, count) = text.split_once('/')?;
        let number = number.parse::<usize>().ok()?;
        let count = count.parse::<usize>().ok()?;
        if number == 0 || number > count || count > MOST_PARTS {
            return None;
        }
        Some(ClassPart { number, count })
    }

    /// Whether the part has the submission of this place, from 0, in the sorted list.
    pub fn has(self, place: usize) -> bool
        requires { 0 < self.count }
        ensures { IsTrue result ↔ IsInPart self place }
    {
        self.number == (place % self.count).saturating_add(1)
    }
}

/// Whether a call for a part judges the submission of a place of the class; one for no part judges each.
pub fn is_judged(part: Option<ClassPart>, place: usize) -> bool
    ensures { result ≡ judges_place part place }
{
    match part {
        Some(part) => part.count > 0 && part.has(place),
        None => true,
    }
}

/// The submissions of a class that a call for a part judges, in the order of the class.
pub fn judged_in<'a>(
    alloc: Global,
    part: Option<ClassPart>,
    class: &[&'a str],
) -> Result<Vec<&'a str>, AllocError>
    ensures { IfOk result (λ v. v.items ≡ judged_in part class.now) }
{
    let mut judged = Vec::new(alloc);
    for place in 0..class.len() {
        if is_judged(part, place) {
            judged.push(class[place])?;
        }
    }
    Ok(judged)
}
