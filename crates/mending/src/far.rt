// Edits of scores in which few columns hold a pitch and lie far apart, up to the most columns and tracks: the nearest earlier
// column with a pitch is far back, or there is none.

use crate::edit::{Edit, Kind, lent_of};
use second::totals::{less_one, more, product};

fn tracks_of(k: usize) -> usize {
    match k {
        0 => 1,
        1 => 2,
        _ => 16,
    }
}

fn columns_in(k: usize) -> usize {
    match k {
        0 => 1,
        1 => 2,
        2 => 3,
        3 => 40,
        _ => 2048,
    }
}

// The changed column: the first, the second, one in the middle, the last but one, or the last.
fn column_in(k: usize, n: usize) -> usize {
    match k {
        0 => 1,
        1 => n.min(2),
        2 => more(n / 2, 1),
        3 => less_one(n).max(1),
        _ => n,
    }
}

// Each of three numbers of tracks, five of columns and seven patterns, with five columns, each becoming three others, by right
// and by wrong sets.
pub fn far_edit(k: usize) -> Edit {
    let w = k / 4;
    let n = columns_in(w / 45 % 5);
    Edit {
        kind: Kind::Far,
        h: tracks_of(w / 15 % 3),
        n,
        score: w / 225,
        column: column_in(w % 5, n),
        into: w / 5 % 3,
        lent: lent_of(k % 4),
    }
}

// Whether column j of n holds a pitch, by the pattern: none; the first; the second; the first and the last; the last; those
// beside one in the middle; or all. The pattern is counted, and read here alone: an enum would be a second match.
fn sounding(pattern: usize, j: usize, n: usize) -> bool {
    match pattern {
        0 => false,
        1 => j == 1,
        2 => j == 2,
        3 => j == 1 || j == n,
        4 => j == n,
        5 => j == n / 2 || j == more(n / 2, 2),
        _ => true,
    }
}

// A pitch of a column and a track.
fn tone(j: usize, track: usize) -> u8 {
    40 + (more(product(j, 7), product(track, 5)) % 60) as u8
}

// The cell of column j in a track, from 0: a column with a pitch has one in the first track and one in the last.
pub fn far_cell(e: Edit, j: usize, track: usize) -> u8 {
    if sounding(e.score, j, e.n) && (track == 0 || track == less_one(e.h)) {
        tone(j, track)
    } else {
        255
    }
}

// The same of the changed column: it is emptied, or full, or has a pitch in its last track alone.
pub fn far_change(e: Edit, track: usize) -> u8 {
    match e.into {
        0 => 255,
        1 => tone(e.n, more(track, 3)),
        _ if track == less_one(e.h) => 77,
        _ => 255,
    }
}
