//! From which worlds of a space an end can still be reached.

ghost use Rattle.std.specs.Prelude.{◌≡◌, ◌<◌, ◌↔◌, ℕ, IsTrue, IfOk, length, false};
ghost use Rattle.schedule_space.specs.Spaces.{count, world_of, IsComplete, HasAllEdges};
ghost use Rattle.schedule_space.specs.Fates.{is_end};
ghost use Rattle.schedule_space.specs.Followed.{AllFollowed};
ghost use Rattle.schedule_space.specs.Reaching.{CanEnd, IsMarked, AreEnds, CanAllEnd, AreMarkedToo, AreMarkedBack, marked};

use crate::fates::Fate;
use crate::spaces::Space;
use std::alloc::{AllocError, Global};

impl Space<'_> {
    /// For the world at each place, whether some schedule leads from it to an end, a world in which no stream runs or
    /// none that runs can go on. From those for which this is false each schedule goes on forever.
    ///
    /// Of a complete space, also of one for ends, each answer is exact; of one that was bounded only those that are
    /// true are known.
    pub fn can_end(&self, alloc: Global) -> Result<Vec<bool>, AllocError>
        ensures len { IfOk result (λ v. length v.items ≡ count self.now) }
        ensures reach { IfOk result (λ v. (k : ℕ) → k < count self.now → IsMarked v.items k
            → CanEnd self.now.image (world_of self.now k)) }
        ensures all { IfOk result (λ v. IsComplete self.now → HasAllEdges self.now → (k : ℕ) → k < count self.now
            → CanEnd self.now.image (world_of self.now k) → IsMarked v.items k) }
        ensures followed { IfOk result (λ v. AllFollowed self.now → (k : ℕ) → k < count self.now
            → CanEnd self.now.image (world_of self.now k) → IsMarked v.items k) }
    {
        let mut marks = self.ends(alloc)?;
        for pass in 0..self.len() {
            if !self.mark_before(&mut marks) {
                return Ok(marks);
            }
        }
        Ok(marks)
    }

    /// Of each world, whether it is an end.
    fn ends(&self, alloc: Global) -> Result<Vec<bool>, AllocError>
        ensures { IfOk result (λ v. AreEnds self.now v.items) }
    {
        let mut marks = Vec::new(alloc);
        for place in 0..self.len() {
            marks.push(is_end(self.fate(place)))?;
        }
        Ok(marks)
    }

    /// Marks the worlds from which an edge leads to a marked one, and says whether there was one to mark.
    fn mark_before(&self, marks: &mut [bool]) -> bool
        requires { CanAllEnd self.now marks.old }
        ensures ends { CanAllEnd self.now marks.new }
        ensures kept { AreMarkedToo marks.old marks.new }
        ensures more { IsTrue result → marked marks.old < marked marks.new }
        ensures all { result ≡ false → AreMarkedBack self.now marks.new }
    {
        let edges = self.edges();
        let mut is_more = false;
        for number in (0..edges.len()).rev() {
            let edge = edges[number];
            if marks[edge.to as usize] && !marks[edge.from as usize] {
                marks[edge.from as usize] = true;
                is_more = true;
            }
        }
        is_more
    }
}

/// Whether nothing goes on.
fn is_end(fate: Fate) -> bool
    ensures { result ≡ is_end fate }
{
    match fate {
        Fate::Finished | Fate::Deadlock => true,
        Fate::GoesOn => false,
    }
}
