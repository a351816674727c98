//! Where labels stand.

use crate::fault::Fault;
use crate::place::Place;
use std::alloc::{AllocError, Global};
use std::collections::HashMap;

/// The labels of a text, each with the place where it stands first.
#[derive(Drop)]
pub struct Labels<'t> {
    places: HashMap<&'t [u8], Place>,
}

impl<'t> Labels<'t> {
    ghost use Rattle.std.specs.Prelude.{◌≡◌, ℕ, List, None, OnOk, OnErr};
    ghost use Rattle.std.specs.Option.{option_copied, option_or};
    ghost use Rattle.asm_line.specs.Operands.{label_value};
    ghost use Rattle.asm_line.specs.Labels.{places_of, place_told};

    /// No labels.
    #[tactic(auto, unfolding(crate::specs::Labels::places_of))]
    pub fn new(alloc: Global) -> Labels<'t>
        ensures { (name : List ℕ) → places_of result name ≡ None }
    {
        Labels {
            places: HashMap::new(alloc),
        }
    }

    /// Where the label stands first; None where it was noted on no line.
    #[tactic(auto, unfolding(crate::specs::Labels::places_of))]
    pub fn find(&self, name: &[u8]) -> Option<Place>
        ensures { result ≡ places_of self.now name.now }
    {
        self.places.get(name).copied()
    }

    /// The value of the label.
    pub(crate) fn value(&self, name: &[u8]) -> Result<usize, Fault>
        ensures { result ≡ label_value (places_of self.now name.now) }
    {
        match self.find(name) {
            Some(place) => Ok(place.value),
            None => Err(Fault::LabelMissing),
        }
    }

    /// Adds a line's label, if it has one, at its place. A label that stands already keeps its place. Where memory is
    /// refused, the labels stay as they were.
    #[tactic(auto, unfolding(crate::specs::Labels::places_of))]
    pub fn note(&mut self, label: Option<&'t [u8]>, place: Place) -> Result<(), AllocError>
        ensures takes { OnOk result ((name : List ℕ) → places_of self.new name
            ≡ option_or (places_of self.old name) (place_told name (option_copied label.entry) place)) }
        ensures kept { OnErr result ((name : List ℕ) → places_of self.new name ≡ places_of self.old name) }
    {
        let Some(name) = label else {
            return Ok(());
        };
        self.places.entry(name)?.or_insert(place);
        Ok(())
    }
}
