// Cases that can be checked by hand, one pair each, which are written out: routes that stay where they can, routes that begin in
// a higher track, ties, octaves, empty columns, and the number of places.

use jobs::buffers::{Cells, Theme, fill_by};
use jobs::changes::at;
use jobs::shapes::ask_of;
use second::asks::{Ask, columns_of};
use second::ways::Way;

// How many there are.
pub const SHOWN: usize = 21;

// The scores: how many tracks each has, and its cells, column by column.
const SCORES: [(usize, &[u8]); 8] = [
    (3, &[255, 255, 60, 62, 255, 62, 64, 255, 255]),
    (
        3,
        &[
            59, 55, 255, 62, 255, 50, 255, 64, 48, 65, 255, 66, 72, 60, 255,
        ],
    ),
    (2, &[60, 72, 50, 62, 64, 76]),
    (2, &[60, 60, 255, 255, 255, 62]),
    (3, &[60, 60, 255, 255, 255, 62, 64, 64, 255]),
    (3, &[255, 60, 60, 62, 255, 62, 64, 64, 255]),
    (3, &[60, 60, 255, 62, 62, 62, 255, 255, 64]),
    (1, &[60, 62, 64, 60]),
];

// A case: the score's number, the way, the column, the shift, the places lent, and the theme.
type Case = (usize, Way, u16, i16, usize, &'static [u8]);

const CASES: [Case; SHOWN] = [
    (0, Way::Exact, 1, 0, 3, &[60, 62, 64]),
    (0, Way::Exact, 1, 0, 5, &[60, 62, 64]),
    (0, Way::Exact, 1, 0, 2, &[60, 62, 64]),
    (0, Way::Exact, 1, 0, 0, &[60, 62, 64]),
    (0, Way::Exact, 1, 3, 3, &[57, 59, 61]),
    (0, Way::Exact, 2, 0, 2, &[62, 64]),
    (1, Way::Exact, 2, 2, 3, &[60, 62, 64]),
    (1, Way::Octave, 2, 2, 3, &[60, 62, 64]),
    (1, Way::Written, 2, 0, 4, &[62, 64, 66]),
    (1, Way::Written, 2, 2, 4, &[60, 62, 64]),
    (1, Way::Exact, 2, 1, 3, &[60, 62, 64]),
    (1, Way::Exact, 4, 2, 3, &[60, 62, 64]),
    (1, Way::Octave, 2, 14, 3, &[60, 62, 64]),
    (2, Way::Exact, 1, 0, 3, &[60, 62, 64]),
    (2, Way::Octave, 1, 0, 3, &[60, 62, 64]),
    (3, Way::Exact, 1, 0, 2, &[60, 62]),
    (3, Way::Exact, 2, 0, 2, &[60, 62]),
    (4, Way::Exact, 1, 0, 3, &[60, 62, 64]),
    (5, Way::Exact, 1, 0, 3, &[60, 62, 64]),
    (6, Way::Exact, 1, 0, 3, &[60, 62, 64]),
    (7, Way::Written, 0, 0, 3, &[60, 62, 64]),
];

fn case(k: usize) -> Case {
    CASES[k % SHOWN]
}

// A score by its number.
fn score_at(score: usize) -> (usize, &'static [u8]) {
    SCORES[score % SCORES.len()]
}

// What a case asks.
pub fn shown_ask(k: usize) -> Ask {
    let (score, way, column, shift, places, theme) = case(k);
    let (h, cells) = score_at(score);
    let a = ask_of(h, columns_of(cells.len(), h), theme.len(), way, places);
    at(a, column, shift)
}

// A case put into the lent buffers: behind a score of fewer than fifteen cells there are rests, behind a theme of two notes there
// is a 0.
pub fn arrange_shown(cells: &mut Cells, theme: &mut Theme, k: usize) {
    let (score, .., notes) = case(k);
    let (_, row) = score_at(score);
    fill_by(cells, 15, |i| row.get(i).copied().unwrap_or(255));
    fill_by(theme, 3, |i| notes.get(i).copied().unwrap_or(0));
}
