//! Words that are counted.

/// What stands after a word that is counted: nothing for one, else `s`, as in 1 step, 2 steps and 0 steps.
pub fn plural(count: usize) -> &'static str {
    if count == 1 { "" } else { "s" }
}
