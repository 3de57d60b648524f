// Scores with gaps, columns that hold no pitch: every score of one track and four to six columns over the cells 12, 127 and
// rest, with every theme of two and three notes over those pitches, in all ways; the smaller ones are in the small world. Gaps
// stand at the front, in the middle and at the end, beside one another and alone.

use jobs::job::{Job, Source};
use jobs::shapes::{ask_of, pages_in, room_of, way_of};
use second::asks::Call;
use second::totals::{more, product};

// How many notes theme y of twelve has: the first four have two, the others three.
pub fn notes_of(y: usize) -> usize {
    if y < 4 { 2 } else { 3 }
}

// The columns of score w, and its number among those of its size: of the 1,053 scores the first 81 have four columns, the next
// 243 five, and the others six.
fn sized(w: usize) -> (usize, usize) {
    match w {
        0..=80 => (4, w),
        81..=323 => (5, w - 81),
        _ => (6, w.saturating_sub(324)),
    }
}

// For each score twelve themes in all ways, its sets, and the twelve themes by the sets of another score of the same size, in
// exact and octave by turns.
pub fn gaps_job(k: usize) -> Job {
    let w = k / 49;
    let y = k % 49;
    let (n, score) = sized(w);
    let (theme, way, sets_of) = if y < 37 {
        (y / 3, way_of(y % 3), score)
    } else {
        (y - 37, way_of(y % 2), more(product(score, 5), 7))
    };
    let call = match y {
        0..=35 => pages_in(way),
        36 => Call::Prepare,
        _ => Call::Quick,
    };
    let a = ask_of(1, n, notes_of(theme), way, room_of(more(w, y)));
    Job {
        sets_of,
        whole: y != 36,
        ..Job::quiet(Source::Gaps, score, theme, a, call)
    }
}
