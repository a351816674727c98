//! The search for the places to which ways lead from where streams begin.

ghost use Rattle.std.specs.Prelude.{◌≡◌, IfOk, OnOk};
ghost use Rattle.reachable_places.specs.Ways.{AreReachable};
ghost use Rattle.reachable_places.specs.Searches.{with_place, left_with, with_successors, left_with_successors};
ghost use Rattle.reachable_places.specs.Searches.{IsSearch, HasBeginnings};

use crate::successors::{Successors, successors_at};
use image_file::Image;
use std::alloc::{AllocError, Global};

/// The places to which ways are found to lead so far, and those of them whose successors are still to be found.
#[derive(Drop)]
struct Search {
    places: Vec<bool>,
    left: Vec<u32>,
}

impl Search {
    /// Finds that a way leads to a place.
    #[tactic(auto, using(crate::proofs::Searches::left_new, crate::proofs::Searches::left_same))]
    fn reach(&mut self, place: u32) -> Result<(), AllocError>
        ensures places { OnOk result (self.new.places.items ≡ with_place self.old.places.items place) }
        ensures left { OnOk result
            (self.new.left.items ≡ left_with self.old.places.items self.old.left.items place) }
    {
        let index = place as usize;
        if index < self.places.len() && !self.places[index] {
            self.places[index] = true;
            self.left.push(place)?;
        }
        Ok(())
    }

    /// Finds that ways lead to these successors.
    fn follow(&mut self, successors: Successors) -> Result<(), AllocError>
        ensures places { OnOk result (self.new.places.items ≡ with_successors self.old.places.items successors) }
        ensures left { OnOk result
            (self.new.left.items ≡ left_with_successors self.old.places.items self.old.left.items successors) }
    {
        match successors {
            Successors::None => {}
            Successors::One(place) => self.reach(place)?,
            Successors::Two(place, other) => {
                self.reach(place)?;
                self.reach(other)?;
            }
            Successors::Any => {
                self.places.fill(true);
                self.left.clear();
            }
        }
        Ok(())
    }
}

/// A search that has found where the streams of an image begin.
fn begun(alloc: Global, image: &Image) -> Result<Search, AllocError>
    ensures kept { IfOk result (λ search. IsSearch image.now search.places.items search.left.items (λ k. ⊥)) }
    ensures begins { IfOk result (λ search. HasBeginnings image.now search.places.items) }
{
    let mut search = Search {
        places: vec![in alloc; false; image.program().len()]?,
        left: Vec::new(alloc),
    };
    search.reach(image.trap_entry())?;
    for processor in 0..image.processors() {
        if let Some(entry) = image.entry(processor) {
            search.reach(entry)?;
        }
    }
    Ok(search)
}

/// The places to which ways lead: each is found once, and its successors then.
pub(crate) fn found_places(alloc: Global, image: &Image) -> Result<Vec<bool>, AllocError>
    ensures { IfOk result (λ places. AreReachable image.now places.items) }
{
    let mut search = begun(alloc, image)?;
    while let Some(place) = search.left.pop() {
        let successors = successors_at(image.profile(), image.program(), place);
        search.follow(successors)?;
    }
    let Search { places, .. } = search;
    Ok(places)
}
