//! What is live, by the place of a word and by register, and which condition codes are asked for.

ghost use Rattle.std.specs.Prelude.{◌≡◌, [], slice_index_or};
ghost use Rattle.program_flow.specs.Tables.{is_live_by, is_named_by};

/// Which registers are live at a word, by their numbers.
pub type Row = [bool; 32];

/// Which condition codes may be asked for from a word on, the newest first.
pub type CodeRow = [bool; 4];

/// Whether a register is live by a row, or a code is asked for; one that the row does not have is.
pub(crate) fn is_live(row: &[bool], register: usize) -> bool
    ensures { result ≡ is_live_by row.now register }
{
    match row.get(register) {
        Some(live) => *live,
        None => true,
    }
}

/// The row of a place; where the table has none an empty one, by which all is live.
pub(crate) fn row_at(table: &[Row], place: u32) -> &[bool]
    ensures { result.now ≡ slice_index_or table.now place [] }
{
    match table.get(place as usize) {
        Some(row) => row,
        None => &[],
    }
}

/// The row of codes of a place; where the table has none an empty one, by which all are asked for.
pub(crate) fn codes_at(table: &[CodeRow], place: u32) -> &[bool]
    ensures { result.now ≡ slice_index_or table.now place [] }
{
    if let Some(row) = table.get(place as usize) {
        return row;
    }
    &[]
}

/// Whether a register is among those that are named.
pub(crate) fn is_named(names: &[bool], register: usize) -> bool
    ensures { result ≡ is_named_by names.now register }
{
    match names.get(register) {
        Some(named) => *named,
        None => false,
    }
}
