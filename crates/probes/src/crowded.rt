// Pseudo-random scores of one to three tracks and one to six columns, with themes of two to four notes. They have three pitches
// alone, at the lower end, at the upper end or in the middle, and the theme is of the same three there or elsewhere: so many
// pairs stand, notes are repeated, intervals fall, and notes lie outside. The lent sets are those of the score or of another one,
// as they are, with bits turned, or all with no interval or with every one.

use gapped::drawing::{draw, tone_at};
use jobs::buffers::{Cells, Sets, Theme, fill_by};
use jobs::shapes::{ask_of, way_of};
use judging::answers::ask_prepare;
use mending::arranging::lend_sets;
use mending::edit::lent_of;
use second::asks::{Ask, columns_of};
use second::totals::more;

// How many rounds there are.
pub fn number_of_rounds() -> usize {
    2000
}

// What a round asks, in exact and octave by turns.
pub fn crowded_ask(round: usize) -> Ask {
    ask_of(
        more(draw(round, 1, 3), 1),
        more(draw(round, 2, 6), 1),
        more(draw(round, 3, 3), 2),
        way_of(round % 2),
        1,
    )
}

// How far the three pitches lie above the lowest.
const ABOVE: [u8; 3] = [0, 2, 12];

// Cell i: one of four is a rest, and so are all of one column of four.
fn crowded_cell(round: usize, i: usize, column: usize) -> u8 {
    if draw(round, more(column, 600), 4) == 0 {
        return 255;
    }
    ABOVE
        .get(draw(round, more(i, 500), 4))
        .map_or(255, |&above| tone_at(round, above))
}

fn fill_score(cells: &mut [u8], a: Ask, round: usize) {
    fill_by(
        cells,
        a.cells,
        |i| crowded_cell(round, i, columns_of(i, a.h)),
    );
}

fn fill_theme(theme: &mut [u8], many: usize, round: usize) {
    fill_by(theme, many, |i| {
        tone_at(round / 3, ABOVE[draw(round, more(i, 700), 3)])
    });
}

// The score whose sets are lent: in one round of three another one.
fn sets_of(round: usize) -> usize {
    if round % 3 == 0 {
        more(round, 30000)
    } else {
        round
    }
}

// A round put into the lent buffers.
pub fn arrange_crowded(
    cells: &mut Cells,
    theme: &mut Theme,
    sets: &mut Sets,
    a: Ask,
    round: usize,
) {
    fill_score(cells, a, sets_of(round));
    let _ = ask_prepare(cells, sets, a);
    lend_sets(sets, a.sets, lent_of(round / 2 % 4));
    fill_score(cells, a, round);
    fill_theme(theme, a.notes, round);
}
