//! Runs of equal cells.

ghost use Rattle.std.specs.Prelude.{◌≡◌, ◌<◌, length, [], ◌∷◌, MatchOption, IfSome};
ghost use Rattle.asm_text.specs.Runs.{cell_runs};

use tag_memory::Word;
use text_parts::run_length;

/// How many equal cells come first, that cell, and the cells after them; None where there is no cell.
pub(crate) fn first_run(cells: &[Word]) -> Option<(usize, &Word, &[Word])>
    ensures runs { MatchOption result (cell_runs cells.now ≡ [])
        (λ r. cell_runs cells.now ≡ record { thing = r.1.now; times = r.0 } ∷ cell_runs r.2.now) }
    ensures shorter { IfSome result (λ r. length r.2.now < length cells.now) }
{
    let first = cells.first()?;
    let times = run_length(cells, first);
    Some((times, first, &cells[times..]))
}
