//! The list of the submissions of a class.

ghost use Rattle.std.specs.Prelude.{IfOk};
ghost use Rattle.class_results.specs.Classes.{IsClassOf};

use std::alloc::{AllocError, Global};

/// The submissions of a class: sorted by the bytes of their paths, each once.
pub fn class_of<'a>(alloc: Global, paths: &[&'a str]) -> Result<Vec<&'a str>, AllocError>
    ensures { IfOk result (λ class. IsClassOf paths.now class.items) }
{
    let mut class = Vec::from_slice(alloc, paths)?;
    class.sort()?;
    class.dedup();
    Ok(class)
}
