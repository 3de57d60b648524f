// The empty columns taken out: the cells of the others, one column after another, and their numbers in the score.

ghost use Rattle.std.specs.Prelude.{true, ◌≡◌, ◌+◌, ◌≤◌, length};
ghost use Rattle.std.proofs.lemmas.List.Edits.{sets};
ghost use Rattle.score.specs.Score.{columns_in};
ghost use Rattle.passing.specs.Passing.{has_room, TakesOut};

use crate::empties::is_empty;
use score::{MOST_COLUMNS, columns_in};

// Writes the cells and the numbers of the columns with a pitch, each from the front of its buffer, and gives how many there
// are. Where a buffer has no room for those of the whole score, or the score has too many columns, nothing is written.
pub fn take_out(cells: &[u8], tracks: usize, kept: &mut [u8], numbers: &mut [u16]) -> usize
    ensures { TakesOut cells.now tracks kept.old numbers.old
        result kept.new numbers.new }
{
    let n = columns_in(cells, tracks);
    if kept.len() < cells.len() || numbers.len() < n || MOST_COLUMNS < n {
        return 0;
    }
    take_each(cells, tracks, n, kept, numbers)
}

// The same where there is room for all of them.
fn take_each(cells: &[u8], tracks: usize, n: usize, kept: &mut [u8], numbers: &mut [u16]) -> usize
    requires { (n ≡ columns_in cells.now tracks) × (has_room cells.now tracks kept.old numbers.old ≡ true) }
    ensures { TakesOut cells.now tracks kept.old numbers.old
        result kept.new numbers.new }
{
    let mut left = cells;
    let mut q = 0;
    let mut at = 0;
    for k in 0..n {
        let (column, rest) = left.split_at(tracks);
        if !is_empty(column) {
            copy(column, kept, at);
            numbers[q] = (k + 1) as u16;
            q += 1;
            at += tracks;
        }
        left = rest;
    }
    q
}

// Copies a column's cells, from a place on. By cells: the library's `copy_from_slice` would ask `memmove` of whoever links the
// library, for a few bytes at a time.
fn copy(column: &[u8], kept: &mut [u8], at: usize)
    requires { at + length column.now ≤ length kept.old }
    ensures { kept.new ≡ sets kept.old at column.now }
{
    for (i, &cell) in column.iter().enumerate() {
        kept[at + i] = cell;
    }
}
