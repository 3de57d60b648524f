// The requirement's worked cases, some in written, and some with columns that hold no pitch, page after page.

use crate::buffers::fill_by;
use crate::job::{CALLS, Head, Job, Source};
use crate::shapes::ask_of;
use second::asks::{Ask, columns_of};
use second::ways::{Way, counted};

// The scores: K first, then those of one track, then one of two tracks with columns that hold no pitch.
const SCORES: [[u8; 10]; 9] = [
    [60, 67, 62, 69, 64, 255, 65, 72, 255, 67],
    [0, 0, 0, 0, 0, 0, 0, 0, 0, 0],
    [127, 127, 0, 0, 0, 0, 0, 0, 0, 0],
    [120, 0, 0, 0, 0, 0, 0, 0, 0, 0],
    [60, 255, 62, 0, 0, 0, 0, 0, 0, 0],
    [60, 0, 0, 0, 0, 0, 0, 0, 0, 0],
    [255, 255, 255, 255, 255, 255, 255, 255, 255, 255],
    [255, 60, 255, 255, 62, 64, 255, 255, 255, 255],
    [255, 255, 60, 67, 255, 255, 255, 62, 69, 255],
];

// A case: the score's number, its tracks and cells, the way, the room, and the theme.
type Case = (usize, usize, usize, Way, usize, &'static [u8]);

const CASES: [Case; 35] = [
    (0, 2, 10, Way::Exact, 4, &[60, 62, 64]),
    (0, 2, 10, Way::Exact, 4, &[67, 62]),
    (0, 2, 10, Way::Exact, 2, &[67, 62]),
    (0, 2, 10, Way::Exact, 3, &[67, 62]),
    (0, 2, 10, Way::Exact, 4, &[60, 67, 69]),
    (0, 2, 10, Way::Octave, 4, &[60, 67, 69]),
    (0, 2, 10, Way::Octave, 4, &[60, 69, 71]),
    (1, 1, 2, Way::Exact, 4, &[127, 127]),
    (2, 1, 2, Way::Exact, 4, &[0, 0]),
    (3, 1, 2, Way::Exact, 4, &[0, 12]),
    (3, 1, 2, Way::Octave, 4, &[0, 12]),
    (4, 1, 3, Way::Exact, 4, &[60, 62]),
    (4, 1, 3, Way::Octave, 4, &[60, 62]),
    (5, 1, 1, Way::Exact, 4, &[60, 62]),
    (0, 2, 10, Way::Written, 4, &[60, 62, 64]),
    (0, 2, 10, Way::Written, 4, &[67, 62]),
    (0, 2, 10, Way::Written, 1, &[67, 62]),
    (0, 2, 10, Way::Written, 4, &[62, 64, 65]),
    (0, 2, 10, Way::Written, 4, &[65, 67]),
    (0, 2, 10, Way::Written, 4, &[60, 67, 69]),
    (1, 1, 4, Way::Written, 2, &[0, 0]),
    (1, 1, 2, Way::Written, 4, &[127, 127]),
    (2, 1, 2, Way::Written, 4, &[127, 127]),
    (3, 1, 2, Way::Written, 4, &[0, 12]),
    (4, 1, 3, Way::Written, 4, &[60, 62]),
    (5, 1, 1, Way::Written, 4, &[60, 62]),
    (6, 1, 3, Way::Written, 4, &[60, 60]),
    (7, 1, 7, Way::Exact, 4, &[60, 62, 64]),
    (7, 1, 7, Way::Octave, 4, &[60, 62, 64]),
    (7, 1, 7, Way::Written, 4, &[60, 62, 64]),
    (7, 1, 7, Way::Exact, 1, &[62, 64]),
    (8, 2, 10, Way::Exact, 4, &[60, 62, 69]),
    (4, 1, 3, Way::Exact, 4, &[60, 62, 64]),
    (4, 1, 3, Way::Written, 4, &[60, 62, 64]),
    (6, 1, 3, Way::Exact, 4, &[60, 60]),
];

fn case(k: usize) -> Case {
    CASES[k % CASES.len()]
}

// What a case asks, from its first bookmark.
fn case_ask(k: usize) -> Ask {
    let (_, h, cells, way, room, theme) = case(k);
    ask_of(h, columns_of(cells, h), theme.len(), way, room)
}

// Puts a case's score into the lent buffer.
pub fn load(cells: &mut [u8], k: usize) {
    let (score, ..) = case(k);
    if let Some(row) = SCORES.get(score) {
        for (cell, &x) in cells.iter_mut().zip(row) {
            *cell = x;
        }
    }
}

// Puts its theme there; behind one of two notes there is a 0.
pub fn load_theme(theme: &mut [u8], k: usize) {
    let (.., notes) = case(k);
    fill_by(theme, 3, |i| notes.get(i).copied().unwrap_or(0));
}

// Each case four times: its sets; plain and quick, written out; and the two beside one another. Of a way without quick pages
// the last two are not tried. A case is written before its first pages.
pub fn worked_job(k: usize) -> Option<Job> {
    let a = case_ask(k / 4);
    let what = k % 4;
    if 1 < what && !counted(a.way) {
        return None;
    }
    Some(Job {
        whole: 0 < what,
        deep: true,
        loud: matches!(what, 1 | 2),
        head: if what == 1 { Head::Case } else { Head::Quiet },
        ..Job::quiet(Source::Worked, k / 4, k / 4, a, CALLS[what])
    })
}
