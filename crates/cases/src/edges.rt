// Edges: scores of one pitch all over, or of rests only, with a theme of equal notes; and scores in which a rising theme stands
// in the last columns alone, each note in another track, whole or with its last note too high. The themes have up to 32 notes,
// and the scores one column less than the theme has notes, as many, one more, or many more.

ghost use Rattle.std.specs.Prelude.{◌<◌};

use gapped::spreads::{notes_by, tracks_by};
use jobs::buffers::fill_by;
use jobs::changes::at;
use jobs::job::{Job, Source};
use jobs::shapes::{ask_of, pages_in, room_of, way_of};
use second::asks::{Ask, columns_of};
use second::totals::{less_one, more};
use second::ways::{lowest, shift_at, span};

// The kinds: one pitch, rests, the theme at the end, and the same spoilt.
#[derive(Clone, Copy, PartialEq, Eq)]
enum Kind {
    Even,
    Silent,
    Ending,
    Spoilt,
}

// The kind of an edge, by its number.
fn kind_of(e: usize) -> Kind {
    match e % 4 {
        0 => Kind::Even,
        1 => Kind::Silent,
        2 => Kind::Ending,
        _ => Kind::Spoilt,
    }
}

fn tracks_of(e: usize) -> usize
    ensures { 0 < result }
{
    tracks_by(e / 4)
}

fn notes_of(e: usize) -> usize {
    notes_by(e / 8)
}

fn columns_in(e: usize) -> usize {
    let m = notes_of(e);
    match e / 24 % 4 {
        0 => less_one(m),
        1 => m,
        2 => more(m, 1),
        _ => more(m, 40),
    }
}

// The columns before those in which the theme stands; none where it is longer than the score.
fn before(e: usize) -> usize {
    columns_in(e).saturating_sub(notes_of(e))
}

// Note i of the theme, from 0: the same all over, or rising.
fn edge_note(e: usize, i: usize) -> u8 {
    match kind_of(e) {
        Kind::Even | Kind::Silent => 60,
        Kind::Ending | Kind::Spoilt => 40 + (i % 64) as u8,
    }
}

// The same as it stands in the score: of the spoilt ones the last is too high. That of `gapped::spreads` differs in its notes and
// has rests behind: one for both would take all it says from its callers.
fn standing_note(e: usize, i: usize) -> u8 {
    let spoilt = kind_of(e) == Kind::Spoilt && more(i, 1) == notes_of(e);
    edge_note(e, if spoilt { more(i, 1) } else { i })
}

// The cell of a column and a track, both from 0, of a score in which the theme stands at the end.
fn ending_cell(e: usize, column: usize, track: usize) -> u8 {
    match column.checked_sub(before(e)) {
        Some(i) if i % tracks_of(e) == track => standing_note(e, i),
        _ => 255,
    }
}

// Cell i of an edge's score.
fn edge_cell(e: usize, i: usize) -> u8 {
    let h = tracks_of(e);
    match kind_of(e) {
        Kind::Even => 60,
        Kind::Silent => 255,
        Kind::Ending | Kind::Spoilt => ending_cell(e, i / h, i % h),
    }
}

pub fn fill_edge(cells: &mut [u8], many: usize, e: usize) {
    fill_by(cells, many, |i| edge_cell(e, i));
}

pub fn fill_edge_theme(theme: &mut [u8], e: usize) {
    fill_by(theme, 32, |i| edge_note(e, i));
}

// From the p-th bookmark: the first; the last column at which the theme has room, from its lowest shift and from one above its
// highest; and one column behind the last.
fn from_mark(a: Ask, p: usize, last: usize) -> Ask {
    let way = a.way;
    let top = shift_at(way, span(way));
    let column = (last % 65536) as u16;
    match p {
        0 => a,
        1 => at(a, column, lowest(way)),
        2 => at(a, column, top),
        _ => at(a, (more(columns_of(a.cells, a.h), 1) % 65536) as u16, top),
    }
}

// Each edge in all ways, at all rooms: the whole list, and a page from each other bookmark.
pub fn edge_job(k: usize) -> Job {
    let e = k / 60;
    let p = k / 15 % 4;
    let way = way_of(k % 3);
    let a = ask_of(
        tracks_of(e),
        columns_in(e),
        notes_of(e),
        way,
        room_of(k / 3),
    );
    let marked = from_mark(a, p, more(before(e), 1));
    Job {
        whole: p == 0,
        ..Job::quiet(Source::Edge, e, e, marked, pages_in(way))
    }
}
