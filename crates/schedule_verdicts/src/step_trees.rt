//! A tree of steps that reaches each place of a space.

use busy_streams::space::{Edge, Space};
use std::alloc::{AllocError, Global};

/// For each place of a space the edge by which a walk comes there, and the first of the edges that lead on from there,
/// as numbers. Each of these edges leads on from an earlier place: so no walk loops. From each place one leads on, if
/// one can that no earlier place has taken: so a walk has few places from which none does.
#[derive(Drop)]
pub(crate) struct StepTree {
    to: Vec<u32>,
    from: Vec<u32>,
    /// Whether the place's own first edge on is taken, and whether it is another's.
    goes_on: Vec<bool>,
    is_taken: Vec<bool>,
}

impl StepTree {
    /// That of a space.
    pub(crate) fn of(alloc: Global, space: &Space<'_>) -> Result<StepTree, AllocError> {
        let count = space.len();
        let mut tree = StepTree {
            to: vec![in alloc; 0u32; count]?,
            from: vec![in alloc; 0u32; count]?,
            goes_on: vec![in alloc; false; count]?,
            is_taken: vec![in alloc; false; count]?,
        };
        let mut last = None;
        for (number, edge) in space.edges().iter().enumerate() {
            // what comes after the last number is left out
            let Ok(number) = u32::try_from(number) else {
                return Ok(tree);
            };
            if last != Some(edge.from) {
                tree.begin(*edge, number);
            }
            tree.add(*edge, number);
            last = Some(edge.from);
        }
        Ok(tree)
    }

    /// Notes the first edge from a place.
    fn begin(&mut self, edge: Edge, number: u32) {
        if let Some(first) = self.from.get_mut(edge.from as usize) {
            *first = number;
        }
    }

    /// Takes an edge for the one by which a walk comes to its place, if it leads there from an earlier one, and no place
    /// needs another one to go on.
    fn add(&mut self, edge: Edge, number: u32) {
        let (Some(goes_on), Some(is_taken), Some(last)) = (
            self.goes_on.get_mut(edge.from as usize),
            self.is_taken.get_mut(edge.to as usize),
            self.to.get_mut(edge.to as usize),
        ) else {
            return;
        };
        if edge.from >= edge.to || *is_taken {
            return;
        }
        *last = number;
        if !*goes_on {
            *goes_on = true;
            *is_taken = true;
        }
    }

    /// The number of the first edge that leads on from a place, if one does.
    pub(crate) fn first_from(&self, place: usize) -> usize {
        self.from.get(place).copied().unwrap_or(0) as usize
    }

    /// Whether it has the edge of this number.
    pub(crate) fn has(&self, number: usize, edge: Edge) -> bool {
        match self.to.get(edge.to as usize) {
            Some(last) => *last as usize == number && edge.from < edge.to,
            None => false,
        }
    }
}
