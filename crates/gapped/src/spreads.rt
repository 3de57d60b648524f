// A rising theme spread over a score: no, one or many empty columns before it, between each two of its notes, and behind it;
// each note in another track, the theme whole or with its last note too high. It has 2, 31 or 32 notes.

ghost use Rattle.std.specs.Prelude.{◌<◌};

use jobs::buffers::fill_by;
use jobs::changes::at;
use jobs::job::{Job, Source};
use jobs::shapes::{ask_of, pages_in, room_of, way_of};
use second::asks::Ask;
use second::totals::{less_one, more, product};
use second::ways::{lowest, shift_at, span};

// One track or the most, by turns.
pub fn tracks_by(k: usize) -> usize
    ensures { 0 < result }
{
    if k % 2 == 0 { 1 } else { 16 }
}

// The fewest notes or about the most, by turns.
pub fn notes_by(k: usize) -> usize
    ensures { 0 < result }
{
    match k % 3 {
        0 => 2,
        1 => 31,
        _ => 32,
    }
}

fn tracks_of(e: usize) -> usize
    ensures { 0 < result }
{
    tracks_by(e / 2)
}

fn notes_of(e: usize) -> usize {
    notes_by(e / 4)
}

// How far each note is behind the one before: the empty columns between them, and one.
fn stride_of(e: usize) -> usize
    ensures { 0 < result }
{
    match e / 12 % 3 {
        0 => 1,
        1 => 2,
        _ => 4,
    }
}

// The empty columns at an end, by a number.
fn empty_at(k: usize) -> usize {
    match k % 3 {
        0 => 0,
        1 => 1,
        _ => 40,
    }
}

// The empty columns before the theme, and those behind it.
fn before(e: usize) -> usize {
    empty_at(e / 36)
}

fn behind(e: usize) -> usize {
    empty_at(e / 108)
}

fn columns_in(e: usize) -> usize {
    more(
        more(before(e), behind(e)),
        more(product(less_one(notes_of(e)), stride_of(e)), 1),
    )
}

// Note i of the theme, from 0.
fn spread_note(i: usize) -> u8 {
    40 + (i % 64) as u8
}

// The same as it stands in the score: of the spoilt ones the last is too high. Behind the theme there are rests.
// That of `cases::edges` has no rests behind and other notes: one for both would take all it says from its callers.
fn standing_note(e: usize, i: usize) -> u8 {
    let m = notes_of(e);
    if m <= i {
        return 255;
    }
    let spoilt = e % 2 == 1 && more(i, 1) == m;
    spread_note(if spoilt { more(i, 1) } else { i })
}

// The cell of a column and a track, both from 0.
fn cell_at(e: usize, column: usize, track: usize) -> u8 {
    let Some(after) = column.checked_sub(before(e)) else {
        return 255;
    };
    let stride = stride_of(e);
    let i = after / stride;
    if after % stride == 0 && i % tracks_of(e) == track {
        standing_note(e, i)
    } else {
        255
    }
}

pub fn fill_spread(cells: &mut [u8], many: usize, e: usize) {
    let h = tracks_of(e);
    fill_by(cells, many, |i| cell_at(e, i / h, i % h));
}

pub fn fill_spread_theme(theme: &mut [u8]) {
    fill_by(theme, 32, spread_note);
}

// From the p-th bookmark: the first; the theme's first column, from its lowest shift and from one above its highest; the column
// before that one from above its highest shift; and the column behind it from its lowest.
fn from_mark(a: Ask, p: usize, e: usize) -> Ask {
    let way = a.way;
    let top = shift_at(way, span(way));
    let column = (before(e) % 2048) as u16;
    match p {
        0 => a,
        1 => at(a, column + 1, lowest(way)),
        2 => at(a, column + 1, top),
        3 => at(a, column, top),
        _ => at(a, column + 2, lowest(way)),
    }
}

// Each of 324 scores in all ways: the whole list, and a page from each other bookmark. Where the theme stands in the first column
// there is none before it.
pub fn spread_job(k: usize) -> Option<Job> {
    let e = k / 15;
    let p = k / 3 % 5;
    if p == 3 && before(e) == 0 {
        return None;
    }
    let way = way_of(k % 3);
    let a = ask_of(tracks_of(e), columns_in(e), notes_of(e), way, room_of(e));
    Some(Job {
        whole: p == 0,
        ..Job::quiet(Source::Spread, e, e, from_mark(a, p, e), pages_in(way))
    })
}
