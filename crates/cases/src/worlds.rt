// A small world, whole: every score of one and two tracks and up to three columns over the cells 0, 12, 127 and rest, with
// every theme of two and three notes over those pitches, in all ways.

use jobs::job::{Job, Source};
use jobs::shapes::{ask_of, pages_in, room_of, way_of};
use second::asks::Call;
use second::totals::more;

// How many notes theme y has: the first nine have two, the others three.
fn notes_of(y: usize) -> usize {
    if y < 9 { 2 } else { 3 }
}

// The tracks and columns of score w, and its number among those of its shape: of the 4,452 scores the first 84 have one track,
// the others two; the first of each have one column, then two, then three.
fn shaped(w: usize) -> (usize, usize, usize) {
    match w {
        0..=3 => (1, 1, w),
        4..=19 => (1, 2, w - 4),
        20..=83 => (1, 3, w - 20),
        84..=99 => (2, 1, w - 84),
        100..=355 => (2, 2, w - 100),
        _ => (2, 3, w.saturating_sub(356)),
    }
}

// For each score 36 themes in all ways, and its sets, which are tried last.
pub fn world_job(k: usize) -> Job {
    let (h, n, x) = shaped(k / 109);
    let y = k % 109;
    let way = way_of(y % 3);
    let call = if y < 108 {
        pages_in(way)
    } else {
        Call::Prepare
    };
    let a = ask_of(h, n, notes_of(y / 3), way, room_of(more(x, y)));
    Job {
        whole: y < 108,
        deep: x == 0,
        ..Job::quiet(Source::World, x, y / 3, a, call)
    }
}
