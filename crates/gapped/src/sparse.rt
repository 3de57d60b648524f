// The pseudo-random scores once more, with columns emptied: one of ten, half of them, or nine of ten; and with themes cut from
// the columns that hold a pitch, across the empty ones.

use crate::drawing::{draw, fill, note_of, start_in};
use second::asks::{Ask, columns_of};
use second::finder::starts_among;
use second::score::score_of;
use second::totals::more;

// Whether a column is emptied, by the number of the score.
fn emptied(round: usize, column: usize) -> bool {
    let x = draw(round, more(column, 1000), 10);
    match round / 4 % 3 {
        0 => x == 0,
        1 => x < 5,
        _ => x < 9,
    }
}

pub fn fill_sparse(cells: &mut [u8], many: usize, h: usize, round: usize) {
    fill(cells, many, round);
    for (i, cell) in cells.iter_mut().enumerate().take(many) {
        if emptied(round, columns_of(i, h)) {
            *cell = 255;
        }
    }
}

// A column with a pitch, at which the theme has room where it has any.
fn column_in(cells: &[u8], a: Ask, round: usize) -> usize {
    let score = score_of(cells, a);
    let starts = starts_among(score.heard_from(1), a.notes);
    score.onward(0, start_in(starts, round))
}

// A round's theme, from a column on: each note about the next column with a pitch.
pub fn fill_sparse_theme(cells: &[u8], theme: &mut [u8], a: Ask, round: usize) {
    let score = score_of(cells, a);
    let mut j = column_in(cells, a, round);
    for (i, note) in theme.iter_mut().enumerate().take(a.notes) {
        *note = note_of(cells, a, j, round, i);
        j = score.next_heard(j);
    }
}
