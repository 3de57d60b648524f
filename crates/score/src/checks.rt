// What is turned away of a score and of lent sets, and where. Every check is total: it may be asked of any cells, tracks
// and sets, and says what the rows of the table of refusals say, the lowest number that applies.

ghost use Rattle.std.specs.Prelude.{◌≡◌, not, [], ◌∷◌, ◌-◌, eqb};
ghost use Rattle.theory.specs.Lists.{some, first};
ghost use Rattle.score.specs.Score.{columns_in};
ghost use Rattle.score.specs.Refusals.{verdict, row1, row2, row3, row6, row7, bad_cell, bad_set};

use crate::limits::{HIGHEST_PITCH, HIGHEST_SET, MOST_COLUMNS, MOST_TRACKS, REST};
use crate::refusals::{Refusal, Rule};

// Refusals 1 to 3: the tracks, the number of cells, and the cells themselves.
pub fn check_score(cells: &[u8], tracks: usize) -> Result<(), Refusal>
    ensures { result ≡ verdict (row1 tracks ∷ row2 cells.now tracks ∷ row3 cells.now ∷ []) }
{
    if bad_tracks(tracks) {
        return Err(Refusal::new(Rule::Tracks));
    }
    if bad_columns(cells, tracks) {
        return Err(Refusal::new(Rule::Columns));
    }
    if any_bad_cell(cells) {
        return Err(Refusal::at(Rule::Cell, first_bad_cell(cells)));
    }
    Ok(())
}

// Refusals 6 and 7: the number of lent sets, and the sets themselves.
pub fn check_sets(cells: &[u8], tracks: usize, sets: &[u16]) -> Result<(), Refusal>
    ensures { result ≡ verdict (row6 cells.now tracks sets.now ∷ row7 sets.now ∷ []) }
{
    if bad_length(cells, tracks, sets.len()) {
        return Err(Refusal::new(Rule::SetsLength));
    }
    if any_bad_set(sets) {
        return Err(Refusal::at(Rule::Set, first_bad_set(sets)));
    }
    Ok(())
}

// How many columns the cells make. No tracks make none.
pub fn columns_in(cells: &[u8], tracks: usize) -> usize
    ensures { result ≡ columns_in cells.now tracks }
{
    if tracks == 0 { 0 } else { cells.len() / tracks }
}

// How many sets they have: one less, and none where there are no columns.
pub fn sets_in(cells: &[u8], tracks: usize) -> usize
    ensures { result ≡ columns_in cells.now tracks - 1 }
{
    let columns = columns_in(cells, tracks);
    if columns == 0 { 0 } else { columns - 1 }
}

// Whether a buffer of this length is not the sets'.
pub fn bad_length(cells: &[u8], tracks: usize, len: usize) -> bool
    ensures { result ≡ not (eqb len (columns_in cells.now tracks - 1)) }
{
    len != sets_in(cells, tracks)
}

fn bad_tracks(tracks: usize) -> bool
    ensures { result ≡ (row1 tracks).applies }
{
    (tracks == 0) | (MOST_TRACKS < tracks)
}

fn bad_columns(cells: &[u8], tracks: usize) -> bool
    ensures { result ≡ (row2 cells.now tracks).applies }
{
    if tracks == 0 {
        true
    } else {
        let columns = cells.len() / tracks;
        (cells.len() % tracks != 0) | (columns == 0) | (MOST_COLUMNS < columns)
    }
}

fn bad_cell(cell: u8) -> bool
    ensures { result ≡ bad_cell cell }
{
    (HIGHEST_PITCH < cell) & (cell < REST)
}

// Whether some cell is bad. All are gone through whatever is found, so that many can be looked at together.
fn any_bad_cell(cells: &[u8]) -> bool
    ensures { result ≡ some bad_cell cells.now }
{
    cells.iter().fold(false, |bad, &cell| bad | bad_cell(cell))
}

// The first cell that is bad, or the number of cells where none is.
fn first_bad_cell(cells: &[u8]) -> usize
    ensures { result ≡ first bad_cell cells.now }
{
    cells
        .iter()
        .position(|&cell| bad_cell(cell))
        .unwrap_or(cells.len())
}

fn bad_set(set: u16) -> bool
    ensures { result ≡ bad_set set }
{
    HIGHEST_SET < set
}

// Whether some set is bad: all are gone through, as of cells.
fn any_bad_set(sets: &[u16]) -> bool
    ensures { result ≡ some bad_set sets.now }
{
    sets.iter().fold(false, |bad, &set| bad | bad_set(set))
}

// The first set that is bad, or the number of sets where none is.
fn first_bad_set(sets: &[u16]) -> usize
    ensures { result ≡ first bad_set sets.now }
{
    sets.iter()
        .position(|&set| bad_set(set))
        .unwrap_or(sets.len())
}
