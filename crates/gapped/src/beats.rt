// Beats: every score of one track whose columns are 127 or empty, up to six of them, so that each has its gaps at other
// places; with themes of two and three notes that stand wherever there is room, or that miss their last note. Lent are all
// sets of 0 and 4095, at columns with and without a pitch; pages begin at every column, empty ones too, with low and high
// shifts; and a number that is no set is refused wherever it stands.

ghost use Rattle.std.specs.Prelude.{◌<◌};

use crate::gaps::notes_of;
use jobs::changes::{Change, What, at};
use jobs::job::{Job, Source};
use jobs::shapes::{ask_of, pages_in, room_of, way_of};
use second::asks::Call;
use second::totals::more;
use second::ways::{Way, lowest, shift_at, span};

// The themes, among the twelve over 12 and 127: 127 twice and three times, and the same with 12 as the last note.
const THEMES: [usize; 4] = [3, 1, 7, 11];

// The columns of score w, how many scores of so many columns there are, and its number among those of its size with their sets:
// the score has a bit for each column, the sets one for each set. Of the 2,728 scores with their sets the first 8 have two
// columns, then come those of three, four, five and six.
fn sized(w: usize) -> (usize, usize, usize)
    ensures { 0 < result.1 }
{
    match w {
        0..=7 => (2, 4, w),
        8..=39 => (3, 8, w - 8),
        40..=167 => (4, 16, w - 40),
        168..=679 => (5, 32, w - 168),
        _ => (6, 64, w.saturating_sub(680)),
    }
}

// A quick list by sets of 0 and 4095: each score, with each choice of them, and four themes, in exact and octave.
pub fn lent_job(k: usize) -> Job {
    let w = k / 8;
    let (n, scores, x) = sized(w);
    let theme = THEMES[k / 2 % 4];
    let a = ask_of(1, n, notes_of(theme), way_of(k % 2), room_of(more(w, k)));
    Job {
        c: Some(Change {
            what: What::EachSet,
            place: 0,
            value: (x / scores % 65536) as u16,
        }),
        whole: true,
        ..Job::quiet(Source::Beats, x % scores, theme, a, Call::Quick)
    }
}

// A bookmark's shift: the lowest, one that is higher than that of any pair, and one above the highest.
fn shift_of(way: Way, s: usize) -> i16 {
    match s {
        0 => lowest(way),
        1 => 1,
        _ => shift_at(way, span(way)),
    }
}

// A page from a bookmark: each score of six columns with four themes, from each column up to one behind the last, at three
// shifts, in all ways.
pub fn mark_job(k: usize) -> Job {
    let x = k / 252;
    let theme = THEMES[k / 63 % 4];
    let column = (k / 9 % 7) as u16;
    let way = way_of(k % 3);
    let a = ask_of(1, 6, notes_of(theme), way, room_of(more(x, k / 9)));
    let marked = at(a, 1 + column, shift_of(way, k / 3 % 3));
    Job::quiet(Source::Beats, x, theme, marked, pages_in(way))
}

// A quick page with a number over 4095 for one set: each score of six columns, each place, and both ends of those numbers.
pub fn wrong_set_job(k: usize) -> Job {
    let theme = THEMES[0];
    let a = ask_of(1, 6, notes_of(theme), Way::Exact, room_of(k));
    Job {
        c: Some(Change {
            what: What::Set,
            place: k / 2 % 5,
            value: if k % 2 == 0 { 4096 } else { 65535 },
        }),
        deep: true,
        ..Job::quiet(Source::Beats, k / 10, theme, a, Call::Quick)
    }
}
