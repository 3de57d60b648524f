// Whether a score has an empty column, quickly: most scores have none, and every page asks.

ghost use Rattle.std.specs.Prelude.{◌≡◌, not, ◌+◌, ◌*◌, ◌≤◌, ◌<◌, ltb, length, drop};
ghost use Rattle.theory.specs.Lists.{some};
ghost use Rattle.score.specs.Limits.{highest_pitch};
ghost use Rattle.score.specs.Score.{cut, score_of, heard, has_empty};
ghost use Rattle.passing.specs.Passing.{rests_first};

use score::{HIGHEST_PITCH, columns_in};

// Whether some column of the cells holds no pitch.
pub fn any_empty(cells: &[u8], tracks: usize) -> bool
    ensures { result ≡ has_empty (score_of cells.now tracks) }
{
    if tracks == 1 {
        return any_rest(cells);
    }
    any_of_rests(cells, tracks)
}

// Whether some cell is no pitch: of one track, a column is a cell. All are gone through whatever is found, so that many can be
// looked at together.
fn any_rest(cells: &[u8]) -> bool
    ensures { result ≡ some (λ cell. ltb highest_pitch cell) cells.now }
{
    cells
        .iter()
        .fold(false, |rest, &cell| rest | (HIGHEST_PITCH < cell))
}

// The same of several tracks; no tracks make no column. Few columns begin with two rests, so four in a row are first asked for
// that together, and each of them alone only where one does. The step is four columns and the rest is asked last, so it is no
// counted loop.
fn any_of_rests(cells: &[u8], tracks: usize) -> bool
    ensures { result ≡ has_empty (score_of cells.now tracks) }
{
    let mut left = columns_in(cells, tracks);
    let mut base = 0;
    while 1 < tracks && 3 < left {
        if four_begin(cells, base, tracks) && any_from(cells, base, tracks, 4) {
            return true;
        }
        base += 4 * tracks;
        left -= 4;
    }
    any_from(cells, base, tracks, left)
}

// Whether one of four columns begins with two rests. All four are looked at whatever is found, so that there is no branch.
fn four_begin(cells: &[u8], base: usize, tracks: usize) -> bool
    requires { (1 < tracks) × (base + 4 * tracks ≤ length cells.now) }
    ensures { result ≡ some rests_first (cut 4 tracks (drop base cells.now)) }
{
    let second = base + tracks;
    let third = second + tracks;
    let fourth = third + tracks;
    rests_at(cells, base)
        | rests_at(cells, second)
        | rests_at(cells, third)
        | rests_at(cells, fourth)
}

// Whether the cells hold two rests from a place on.
fn rests_at(cells: &[u8], at: usize) -> bool
    requires { at + 1 < length cells.now }
    ensures { result ≡ rests_first (drop at cells.now) }
{
    (HIGHEST_PITCH < cells[at]) & (HIGHEST_PITCH < cells[at + 1])
}

// Whether one of so many columns is empty, of which the first begins at base: column by column.
fn any_from(cells: &[u8], base: usize, tracks: usize, many: usize) -> bool
    requires { base + many * tracks ≤ length cells.now }
    ensures { result ≡ has_empty (cut many tracks (drop base cells.now)) }
{
    let mut left = &cells[base..];
    for _ in 0..many {
        let (column, rest) = left.split_at(tracks);
        if is_empty(column) {
            return true;
        }
        left = rest;
    }
    false
}

// Whether a column holds no pitch. Two cells are looked at together, since few columns begin with two rests. By a `for`: with the
// library's `all` a long run of empty columns takes up to half as long again.
pub fn is_empty(column: &[u8]) -> bool
    ensures { result ≡ not (heard column.now) }
{
    if 1 < column.len() && !rests_at(column, 0) {
        return false;
    }
    for &cell in column {
        if cell <= HIGHEST_PITCH {
            return false;
        }
    }
    true
}
