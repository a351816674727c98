//! Places in a line: by its bytes, which are UTF-8, and by units of UTF-16, as editors count.

ghost use Rattle.std.specs.Prelude.{◌≡◌, ◌≤◌, ◌<◌, ◌*◌, ℕ, length, get_or};
ghost use Rattle.std.specs.List.{sum_by};
ghost use Rattle.editor_texts.specs.Positions.{units_of, units_before};

/// How many units of UTF-16 the character takes that begins with a byte; 0 where none does.
fn units_of(byte: u8) -> usize
    ensures is { result ≡ units_of byte }
    ensures few { result ≤ 2 }
{
    if byte < 128 {
        1
    } else if byte < 192 {
        0
    } else if byte < 240 {
        1
    } else {
        2
    }
}

/// How many units of UTF-16 the characters of a line take.
fn units_in(line: &[u8]) -> usize
    ensures { result ≡ sum_by units_of line.now }
{
    let mut units = 0;
    for byte in line {
        units += units_of(*byte);
    }
    units
}

/// How many units of UTF-16 the characters take that begin within the first bytes of a line; all of them, where it has
/// fewer bytes.
pub fn units_before(line: &[u8], place: usize) -> usize
    ensures { result ≡ units_before line.now place }
{
    if place < line.len() {
        units_in(&line[..place])
    } else {
        units_in(line)
    }
}

/// The last place of a line, by its bytes, before which there are at most so many units: past the line's end it is the
/// end, and inside a character its beginning.
pub fn byte_at(line: &[u8], most: usize) -> usize
    ensures within { result ≤ length line.now }
    ensures few { units_before line.now result ≤ most }
    ensures last { (k : ℕ) → k ≤ length line.now → units_before line.now k ≤ most → k ≤ result }
    ensures round { (k : ℕ) → k < length line.now → 0 < units_of (get_or line.now k 0) → units_before line.now k ≡ most
        → result ≡ k }
{
    last_place(line, most)
}

/// The last place before which there are at most so many units.
#[tactic(auto, using(crate::proofs::Units::none_after))]
fn last_place(line: &[u8], most: usize) -> usize
    ensures within { result ≤ length line.now }
    ensures few { units_before line.now result ≤ most }
    ensures last { (k : ℕ) → k ≤ length line.now → units_before line.now k ≤ most → k ≤ result }
{
    let mut units = 0;
    for (index, byte) in line.iter().enumerate() {
        let next = units_of(*byte);
        if units + next > most {
            return index;
        }
        units += next;
    }
    line.len()
}
