// Every edit of small scores: of one track and up to four columns, and of two tracks and up to three, over the cells 12, 127 and
// rest, each column becoming every column, with right and with wrong sets.

ghost use Rattle.std.specs.Prelude.{◌<◌};

use crate::edit::{Edit, Kind, lent_of};
use gapped::spelling::spell;
use second::totals::more;

// How many columns of so many tracks there are.
fn columns_over(h: usize) -> usize
    ensures { 0 < result }
{
    if h == 1 { 3 } else { 9 }
}

// The tracks and columns of edit w, and its number among those of its size: of the 22,500 edits the first 1,278 are of one
// track, the others of two; the first of each are of one column, then of two, and so on.
fn sized(w: usize) -> (usize, usize, usize)
    ensures { 0 < result.1 }
{
    match w {
        0..=8 => (1, 1, w),
        9..=62 => (1, 2, w - 9),
        63..=305 => (1, 3, w - 63),
        306..=1277 => (1, 4, w - 306),
        1278..=1358 => (2, 1, w - 1278),
        1359..=2816 => (2, 2, w - 1359),
        _ => (2, 3, w.saturating_sub(2817)),
    }
}

// Each edit four times, by right and by wrong sets.
pub fn small_edit(k: usize) -> Edit {
    let (h, n, x) = sized(k / 4);
    let all = columns_over(h);
    Edit {
        kind: Kind::Small,
        h,
        n,
        score: x / n / all,
        column: more(x % n, 1),
        into: x / n % all,
        lent: lent_of(k % 4),
    }
}

// So many cells by the digits of x.
pub fn spell_small(cells: &mut [u8], many: usize, x: usize) {
    spell(cells, many, x, &[12, 127, 255]);
}
