// The columns in which the notes of a theme are sought, by their numbers.

ghost use Rattle.std.specs.Prelude.{◌≡◌};
ghost use Rattle.score.specs.Score.{score_of};
ghost use Rattle.seeking.specs.Sought.{sought, sought_behind};

use crate::limits::MOST_SOUGHT;
use passing::is_empty;
use score::{Column, columns_in};

// The numbers of the columns with a pitch from the given one on, the first 64 of them in order, and 0 behind the last. The i-th
// of them is where the i-th note of a theme is sought that begins at this column. Column 0, which is none, has those of column 1.
pub fn sought(cells: &[u8], tracks: usize, column: Column) -> [usize; MOST_SOUGHT]
    ensures { result ≡ sought (score_of cells.now tracks) column }
{
    let j = column.0 as usize;
    if j == 0 {
        return sought_behind(cells, tracks, 0);
    }
    sought_behind(cells, tracks, j - 1)
}

// The same of the columns behind so many.
fn sought_behind(cells: &[u8], tracks: usize, passed: usize) -> [usize; MOST_SOUGHT]
    ensures { result ≡ sought_behind (score_of cells.now tracks) passed }
{
    let n = columns_in(cells, tracks);
    let mut numbers = [0usize; MOST_SOUGHT];
    let mut q: usize = 0;
    for k in passed..n {
        if q == MOST_SOUGHT {
            break;
        }
        let base = k * tracks;
        if !is_empty(&cells[base..base + tracks]) {
            numbers[q] = k + 1;
            q += 1;
        }
    }
    numbers
}
