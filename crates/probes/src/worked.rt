// Cases that can be checked by hand, one pair each: about the order of the reasons, the edges of the ranges, the tracks, and lent
// sets that are not the score's.

use jobs::buffers::{Cells, Sets, Theme, fill_by};
use jobs::changes::at;
use jobs::shapes::ask_of;
use judging::answers::ask_prepare;
use mending::arranging::lend_sets;
use mending::edit::Lent;
use second::asks::Ask;
use second::ways::Way;

// The scores, after their numbers of tracks and columns: two of one track, two of two tracks, and rests.
const SCORES: [(usize, usize, [u8; 6]); 5] = [
    (1, 5, [60, 255, 62, 255, 64, 0]),
    (1, 2, [120, 60, 0, 0, 0, 0]),
    (2, 3, [60, 67, 62, 69, 64, 255]),
    (2, 2, [72, 60, 62, 50, 0, 0]),
    (1, 3, [255, 255, 255, 0, 0, 0]),
];

// The themes, each after the number of its score.
const TUNES: [(usize, &[u8]); 9] = [
    (0, &[60, 62]),
    (0, &[60, 63]),
    (0, &[64, 62]),
    (0, &[60, 62, 65]),
    (0, &[60, 62, 64, 65]),
    (1, &[0, 12]),
    (2, &[67, 62]),
    (3, &[60, 62]),
    (4, &[60, 60]),
];

// A case: its theme's number, its way, its lent sets, its column and its shift.
type Case = (usize, Way, Lent, u16, i16);

// Mostly in exact, by the score's own sets, at the first column and with shift 0.
const CASES: [Case; 26] = [
    (0, Way::Exact, Lent::Right, 1, 0),
    (0, Way::Exact, Lent::Right, 3, 2),
    (0, Way::Exact, Lent::Right, 2, 0),
    (0, Way::Exact, Lent::Right, 4, 0),
    (0, Way::Exact, Lent::Right, 6, 0),
    (0, Way::Exact, Lent::Right, 0, 0),
    (0, Way::Exact, Lent::Right, 0, 128),
    (0, Way::Exact, Lent::Right, 1, 128),
    (0, Way::Octave, Lent::Right, 1, 12),
    (0, Way::Octave, Lent::Right, 1, 0),
    (0, Way::Exact, Lent::Right, 1, 1),
    (0, Way::Exact, Lent::Right, 1, 67),
    (0, Way::Exact, Lent::Right, 1, 68),
    (0, Way::Exact, Lent::Right, 1, -61),
    (0, Way::Exact, Lent::NoInterval, 1, 0),
    (1, Way::Exact, Lent::Right, 1, 0),
    (1, Way::Exact, Lent::EveryInterval, 1, 0),
    (2, Way::Exact, Lent::Right, 1, -4),
    (3, Way::Exact, Lent::Right, 1, 0),
    (4, Way::Exact, Lent::Right, 1, 0),
    (5, Way::Exact, Lent::Right, 1, 120),
    (5, Way::Octave, Lent::Right, 1, 0),
    (6, Way::Exact, Lent::Right, 1, 0),
    (7, Way::Exact, Lent::Right, 1, 0),
    (7, Way::Octave, Lent::Right, 1, 0),
    (8, Way::Exact, Lent::Right, 1, 0),
];

// How many there are.
pub fn number_of_cases() -> usize {
    CASES.len()
}

fn case(k: usize) -> Case {
    CASES[k % CASES.len()]
}

// The score of a theme, its tracks first, and the theme.
fn tune_of(tune: usize) -> ((usize, usize, [u8; 6]), &'static [u8]) {
    let (score, notes) = TUNES[tune % TUNES.len()];
    (SCORES[score % SCORES.len()], notes)
}

// What a case asks.
pub fn worked_ask(k: usize) -> Ask {
    let (tune, way, _, column, shift) = case(k);
    let ((h, n, _), notes) = tune_of(tune);
    at(ask_of(h, n, notes.len(), way, 1), column, shift)
}

// A case put into the lent buffers; behind a theme of fewer than four notes there are some of 0.
pub fn arrange_worked(cells: &mut Cells, theme: &mut Theme, sets: &mut Sets, a: Ask, k: usize) {
    let (tune, _, lent, ..) = case(k);
    let ((.., score), notes) = tune_of(tune);
    for (cell, &x) in cells.iter_mut().zip(&score) {
        *cell = x;
    }
    fill_by(theme, 4, |i| notes.get(i).copied().unwrap_or(0));
    let _ = ask_prepare(cells, sets, a);
    lend_sets(sets, a.sets, lent);
}
