// Pseudo-random edits: of scores with a tenth, half or nine tenths of their columns emptied, in any column, the first and the
// last more often.

use crate::edit::{Edit, Kind, lent_of};
use gapped::drawing::draw;
use second::totals::more;

fn columns_in(round: usize) -> usize {
    if round % 32 == 0 {
        return more(draw(round, 2, 300), 1);
    }
    more(draw(round, 2, 40), 1)
}

fn column_in(round: usize, n: usize) -> usize {
    match round % 7 {
        0 => n,
        1 => 1,
        _ => more(draw(round, 5, n as u64), 1),
    }
}

pub fn drawn_edit(round: usize) -> Edit {
    let n = columns_in(round);
    Edit {
        kind: Kind::Drawn,
        h: more(draw(round, 1, 16), 1),
        n,
        score: round,
        column: column_in(round, n),
        into: draw(round, 12, 4),
        lent: lent_of(draw(round, 13, 4)),
    }
}

// A cell of its own: a pitch, or a rest half the time.
fn own_cell(round: usize, track: usize) -> u8 {
    if draw(round, more(track, 300), 2) == 0 {
        return 255;
    }
    (draw(round, more(track, 400), 128) % 128) as u8
}

// What becomes of a cell of the changed column: all are emptied; all are drawn anew; one is; or each stays as it is.
pub fn drawn_change(e: Edit, track: usize, old: u8) -> u8 {
    match e.into {
        0 => 255,
        1 => own_cell(e.score, track),
        2 if track == draw(e.score, 14, e.h as u64) => own_cell(e.score, track),
        _ => old,
    }
}
