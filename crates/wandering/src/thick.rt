// Pseudo-random scores of one to four tracks and two to seven columns, with themes of two to five notes. They have two or three
// pitches alone, at the lower end, at the upper end or in the middle, and the theme is of the same ones there or elsewhere: so
// many pairs stand, and many tracks share a note. One column of six is empty.

use gapped::drawing::{draw, tone_at};
use jobs::buffers::{Cells, Theme, fill_by};
use jobs::shapes::{ask_of, way_of};
use second::asks::{Ask, columns_of};
use second::totals::more;
use second::ways::Way;

// How many rounds there are.
pub fn thick_rounds() -> usize {
    20000
}

// What a round asks, in the three ways by turns.
pub fn thick_ask(round: usize) -> Ask {
    ask_of(
        more(draw(round, 1, 4), 1),
        more(draw(round, 2, 6), 2),
        more(draw(round, 3, 4), 2),
        way_of(round % 3),
        0,
    )
}

// How far the pitches lie above the lowest.
const ABOVE: [u8; 3] = [0, 12, 2];

// Where the theme is: in written where the score is.
fn theme_place(round: usize, way: Way) -> usize {
    match way {
        Way::Exact | Way::Octave => round / 9,
        Way::Written => round / 3,
    }
}

// One of the pitches, by a purpose: there are two of them, or three.
fn above(round: usize, purpose: usize) -> u8 {
    let tones = if round / 2 % 2 == 0 { 2 } else { 3 };
    ABOVE[draw(round, purpose, tones)]
}

// Cell i: one of eight is a rest.
fn thick_cell(round: usize, i: usize, column: usize) -> u8 {
    if draw(round, more(column, 600), 6) == 0 || draw(round, more(i, 400), 8) == 0 {
        return 255;
    }
    tone_at(round / 3, above(round, more(i, 500)))
}

// A round put into the lent buffers.
pub fn arrange_thick(cells: &mut Cells, theme: &mut Theme, a: Ask, round: usize) {
    let theme_at = theme_place(round, a.way);
    fill_by(cells, a.cells, |i| thick_cell(round, i, columns_of(i, a.h)));
    fill_by(
        theme,
        a.notes,
        |i| tone_at(theme_at, above(round, more(i, 700))),
    );
}
