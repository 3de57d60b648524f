// Large scores, mostly of sixteen tracks, with a theme that is mostly of 32 notes. It was put into them note by note, each note
// into one track at least and into more by chance: into few, into half of them, into most, or into the same ones for some notes
// on end. Empty columns stand between the notes, or none; before and behind are columns by chance. In one round of six a note is
// left out.

use crate::moves::{move_of, moved_at, octave_in, up_by};
use gapped::drawing::draw;
use jobs::buffers::{Cells, Theme, fill_by};
use jobs::shapes::{ask_of, way_of};
use second::asks::{Ask, columns_of};
use second::totals::{more, product};

// How many rounds there are.
pub fn broad_rounds() -> usize {
    5000
}

fn tracks_in(round: usize) -> usize {
    if draw(round, 1, 4) == 0 {
        return more(draw(round, 2, 16), 1);
    }
    16
}

fn notes_in(round: usize) -> usize {
    if draw(round, 3, 3) == 0 {
        return more(draw(round, 4, 31), 2);
    }
    32
}

// The columns before the theme, and those at the end.
fn columns_before(round: usize) -> usize {
    draw(round, 5, 6)
}

fn columns_in(round: usize) -> usize {
    more(
        more(columns_before(round), draw(round, 6, 6)),
        product(notes_in(round), 2),
    )
}

// What a round asks, at the column at which the theme was put.
pub fn broad_ask(round: usize) -> Ask {
    let way = way_of(round % 3);
    let m = notes_in(round);
    let a = ask_of(tracks_in(round), columns_in(round), m, way, m);
    moved_at(
        a,
        (columns_before(round) % 2048) as u16 + 1,
        move_of(way, round),
    )
}

// Whether the k-th column from the theme's first on is empty: none, each second or each third.
fn gap_at(round: usize, k: usize) -> bool {
    match draw(round, 7, 3) {
        0 => false,
        1 => k % 2 == 1,
        _ => k % 3 == 2,
    }
}

// The note of that column, where it is not empty.
fn note_at(round: usize, k: usize) -> usize {
    match draw(round, 7, 3) {
        0 => k,
        1 => k / 2,
        _ => more(product(k / 3, 2), k % 3),
    }
}

const BASES: [u8; 4] = [60, 62, 64, 65];

// The base of note i.
fn base_at(round: usize, i: usize) -> u8 {
    BASES[draw(round, more(i, 700), 4)]
}

// Whether note i is put into a track by chance.
fn chance(round: usize, i: usize, track: usize) -> bool {
    let x = draw(round, more(product(i, 16), more(track, 2000)), 8);
    match round / 3 % 4 {
        0 => x == 0,
        1 => x < 4,
        2 => x < 7,
        _ => draw(round, more(product(i / 5, 16), more(track, 3000)), 8) < 2,
    }
}

// Whether note i is put into a track; the one that is left out into none.
fn put_into(round: usize, i: usize, track: usize, a: Ask) -> bool {
    if draw(round, 8, 6) == 0 && i == draw(round, 9, a.notes as u64) {
        return false;
    }
    track == draw(round, more(i, 900), a.h as u64) || chance(round, i, track)
}

// The cell of note i in a track. Where the note is not put into it: a rest, or another pitch, which can be an octave above.
fn note_cell(round: usize, a: Ask, i: usize, track: usize) -> u8 {
    let p = up_by(base_at(round, i), move_of(a.way, round).score);
    if put_into(round, i, track, a) {
        return octave_in(a.way, p, track);
    }
    match draw(round, more(product(i, 16), more(track, 4000)), 8) {
        0..=3 => 255,
        4 => up_by(p, 12),
        _ => up_by(p, 1),
    }
}

// A cell of another column, from 0.
fn chance_cell(round: usize, column: usize, track: usize) -> u8 {
    let p = draw(round, more(product(column, 16), more(track, 6000)), 12);
    if p < 4 {
        return 255;
    }
    up_by(60, (p % 12) as u8)
}

// The cell of a column and a track, both from 0.
fn broad_cell(round: usize, a: Ask, column: usize, track: usize) -> u8 {
    let Some(k) = column.checked_sub(columns_before(round)) else {
        return chance_cell(round, column, track);
    };
    let i = note_at(round, k);
    if a.notes <= i {
        return chance_cell(round, column, track);
    }
    if gap_at(round, k) {
        return 255;
    }
    note_cell(round, a, i, track)
}

fn put_columns(cells: &mut [u8], a: Ask, round: usize) {
    if a.h == 0 {
        return;
    }
    let columns = columns_of(a.cells, a.h);
    for (column, tracks) in cells.chunks_exact_mut(a.h).enumerate().take(columns) {
        fill_by(tracks, a.h, |track| broad_cell(round, a, column, track));
    }
}

fn put_notes(theme: &mut [u8], a: Ask, round: usize) {
    let up = move_of(a.way, round).theme;
    fill_by(theme, a.notes, |i| up_by(base_at(round, i), up));
}

// A round put into the lent buffers.
pub fn arrange_broad(cells: &mut Cells, theme: &mut Theme, a: Ask, round: usize) {
    put_columns(cells, a, round);
    put_notes(theme, a, round);
}
