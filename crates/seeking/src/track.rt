// The lowest track of a column that holds a note.

ghost use Rattle.std.specs.Prelude.{◌≡◌};
ghost use Rattle.theory.specs.Lists.{first};
ghost use Rattle.seeking.specs.Track.{cell_holds, lowest_track};

use score::{HIGHEST_PITCH, Pitch};
use ways::Way;

// Whether the cell is the note p moved by the code's shift; in octave, whether it is of that class. A rest is not.
pub fn cell_holds(cell: u8, way: Way, code: u16, p: Pitch) -> bool
    ensures { result ≡ cell_holds way code p cell }
{
    if HIGHEST_PITCH < cell {
        return false;
    }
    let moved = p.0 as u32 + code as u32;
    match way {
        Way::Exact => cell as u32 + 127 == moved,
        Way::Octave => cell as u32 % 12 == moved % 12,
    }
}

// How many cells come before the first that holds the note; all of them where none does.
fn first_cell(column: &[u8], way: Way, code: u16, p: Pitch) -> usize
    ensures { result ≡ first (cell_holds way code p) column.now }
{
    column
        .iter()
        .position(|&cell| cell_holds(cell, way, code, p))
        .unwrap_or(column.len())
}

// The number of the lowest track, from 1, whose cell holds the note p moved by the code's shift; 0 where none does, as in the
// tracks of an `explanation`, which are these numbers. In octave any pitch of the right class holds it. It may be asked of any
// column, code and note.
pub fn lowest_track(column: &[u8], way: Way, code: u16, p: Pitch) -> usize
    ensures { result ≡ lowest_track way code p column.now }
{
    let k = first_cell(column, way, code, p);
    if k < column.len() { k + 1 } else { 0 }
}
