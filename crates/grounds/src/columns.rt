// The pair's column by itself, and the columns in which the notes of a theme are sought from there on.

use crate::answers::Why;
use second::asks::Ask;
use second::score::score_of;
use second::totals::less_one;

// What speaks against the column. Behind the last column there are none to count.
pub fn against_column(cells: &[u8], a: Ask) -> Option<Why> {
    let score = score_of(cells, a);
    let j = usize::from(a.column);
    if j == 0 {
        return Some(Why::NoColumn);
    }
    if score.heard_from(j) < a.notes {
        return Some(Why::TooFew);
    }
    if !score.heard(j) {
        return Some(Why::Empty);
    }
    None
}

// The column of note i, from 1: the pair's own, and for each further note the next one with a pitch.
pub fn column_of(cells: &[u8], a: Ask, i: usize) -> usize {
    score_of(cells, a).onward(usize::from(a.column), less_one(i))
}
