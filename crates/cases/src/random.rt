// Pseudo-random scores of all shapes up to the limits, with themes cut from them, moved, and spoilt; and the same with columns
// emptied.

use gapped::drawing::{draw, note_of, start_in};
use jobs::buffers::fill_by;
use jobs::changes::at;
use jobs::job::{Job, Source};
use jobs::shapes::{ask_of, pages_in, room_of, way_of};
use second::asks::{Ask, Call, columns_of};
use second::totals::more;
use second::ways::{Way, shift_at, span};

// A round's theme, from a column of its score on.
pub fn fill_theme(cells: &[u8], theme: &mut [u8], a: Ask, round: usize) {
    let j = column_in(a, round);
    fill_by(theme, a.notes, |i| note_of(cells, a, more(j, i), round, i));
}

// The columns of a round: mostly few.
fn columns_in(round: usize) -> usize {
    if round % 16 == 0 {
        return more(draw(round, 2, 200), 1);
    }
    more(draw(round, 2, 24), 1)
}

// The notes of a round: mostly few.
fn notes_in(round: usize) -> usize {
    if round % 8 == 3 {
        return more(draw(round, 3, 31), 2);
    }
    more(draw(round, 3, 3), 2)
}

// The shapes of large scores: tracks, columns, notes and the room.
const LARGE: [(usize, usize, usize, usize); 6] = [
    (16, 2048, 32, 4000),
    (16, 2048, 2, 4000),
    (1, 2048, 2, 7),
    (5, 2047, 3, 300),
    (16, 31, 32, 3),
    (16, 32, 32, 3),
];

// What is asked in a round: of the largest scores first.
fn asked(round: usize, way: Way) -> Ask {
    if round < 12 {
        let (h, n, m, room) = LARGE[round % 6];
        return ask_of(h, n, m, way, room);
    }
    ask_of(
        more(draw(round, 1, 16), 1),
        columns_in(round),
        notes_in(round),
        way,
        room_of(round),
    )
}

// A column of the score, at which the theme has room where it has any.
fn column_in(a: Ask, round: usize) -> usize {
    start_in(starts_in(columns_of(a.cells, a.h), a.notes), round)
}

fn starts_in(n: usize, m: usize) -> usize {
    n.checked_sub(m).map_or(n, |further| more(further, 1))
}

// Another bookmark, mostly no pair: any column up to one behind the last, and any shift up to one above the highest.
fn aside(a: Ask, round: usize) -> Ask {
    let way = a.way;
    let n = columns_of(a.cells, a.h);
    let column = more(draw(round, 5, more(n, 1) as u64), 1);
    let s = draw(round, 6, more(usize::from(span(way)), 1) as u64);
    at(a, (column % 65536) as u16, shift_at(way, (s % 256) as u8))
}

// Each round: the sets of another score and of this one; lists by the other's sets, lists by its own, and a page from another
// bookmark, in the two ways that count looks; then a list and a page from another bookmark in written.
fn round_job(k: usize, source: Source) -> Job {
    let round = k / 10;
    let what = k % 10;
    let way = if what < 8 {
        way_of(what % 2)
    } else {
        Way::Written
    };
    let call = match what {
        0 | 1 => Call::Prepare,
        2 | 3 => Call::Quick,
        _ => pages_in(way),
    };
    let a = asked(round, way);
    let marked = if matches!(what, 6 | 7 | 9) {
        aside(a, round)
    } else {
        a
    };
    // another score of the same shape
    let other = more(round, 30000);
    Job {
        sets_of: if matches!(what, 0 | 2 | 3) {
            other
        } else {
            round
        },
        whole: matches!(what, 2..=5 | 8),
        deep: round % 8 == 0,
        ..Job::quiet(
            source,
            if what == 0 { other } else { round },
            round,
            marked,
            call,
        )
    }
}

pub fn random_job(k: usize) -> Job {
    round_job(k, Source::Random)
}

pub fn sparse_job(k: usize) -> Job {
    round_job(k, Source::Sparse)
}
