//! Links between places.

/// A link from one place to another one, or to the same.
#[derive(Clone, Copy, Debug, PartialEq, Eq)]
pub struct Link {
    /// The place that it leads from.
    pub from: u32,
    /// The place that it leads to.
    pub to: u32,
}
