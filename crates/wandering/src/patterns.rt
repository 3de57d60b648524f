// Every pattern of tracks: of one to three tracks with two to five notes, and of four tracks with two to four, each track holds
// each note or does not. A cell that does not is a rest, or a pitch one above. So there are notes that no track holds, and where
// all cells are rests the column is passed over.

use crate::moves::{move_of, moved_at, octave_in, track_of, up_by};
use crate::rooms::enough_for;
use gapped::drawing::draw;
use jobs::buffers::{Cells, Theme, fill_by};
use jobs::shapes::{ask_of, way_of};
use second::asks::{Ask, columns_of};
use second::totals::more;
use second::ways::Way;

// How many shapes there are, and for each its tracks, its notes, and how many patterns it has.
pub const SHAPES: usize = 15;

const SIZES: [(usize, usize, usize); SHAPES] = [
    (1, 2, 4),
    (1, 3, 8),
    (1, 4, 16),
    (1, 5, 32),
    (2, 2, 16),
    (2, 3, 64),
    (2, 4, 256),
    (2, 5, 1024),
    (3, 2, 64),
    (3, 3, 512),
    (3, 4, 4096),
    (3, 5, 32768),
    (4, 2, 256),
    (4, 3, 4096),
    (4, 4, 65536),
];

fn size_of_shape(shape: usize) -> (usize, usize, usize) {
    SIZES[shape % SHAPES]
}

// How many patterns a shape has.
pub fn patterns_of(shape: usize) -> usize {
    let (.., patterns) = size_of_shape(shape);
    patterns
}

// What is asked of a pattern, by its bits, in the three ways by turns: at the first column, by the shift of its move.
pub fn pattern_ask(shape: usize, bits: usize) -> Ask {
    let way = way_of(bits % 3);
    let (h, m, _) = size_of_shape(shape);
    let a = ask_of(h, m, m, way, enough_for(m, draw(bits, 23, 4)));
    moved_at(a, 1, move_of(way, bits))
}

// The bases of the notes.
const BASES: [u8; 5] = [60, 67, 62, 62, 70];

fn base_of(i: usize) -> u8 {
    BASES.get(i).copied().unwrap_or(70)
}

// Whether bit i is 1.
fn bit_at(bits: usize, i: usize) -> bool {
    i < 32 && (bits >> i) % 2 == 1
}

// Cell i, which is in a track and in the column of a note, both from 0.
fn pattern_cell(bits: usize, way: Way, i: usize, note: usize, h: usize) -> u8 {
    let p = up_by(base_of(note), move_of(way, bits).score);
    if bit_at(bits, i) {
        return octave_in(way, p, track_of(i, h));
    }
    if draw(bits, more(i, 30), 2) == 0 {
        return 255;
    }
    up_by(p, 1)
}

// A pattern put into the lent buffers.
pub fn arrange_pattern(cells: &mut Cells, theme: &mut Theme, a: Ask, bits: usize) {
    let up = move_of(a.way, bits).theme;
    fill_by(
        cells,
        a.cells,
        |i| pattern_cell(bits, a.way, i, columns_of(i, a.h), a.h),
    );
    fill_by(theme, a.notes, |i| up_by(base_of(i), up));
}
