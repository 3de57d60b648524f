// The tracks of an explanation of the library beside the second explainer's, all places for them.

use crate::calls::Tracks;
use grounds::notes::track_of;
use second::asks::{Ask, Case};
use second::totals::{REST, get_or, more};

// The track of note i, counted from 0.
fn due_at(case: Case<'_>, a: Ask, i: usize) -> usize {
    let p = get_or(case.theme, i, REST);
    track_of(case.cells, a, more(i, 1), p).unwrap_or(0)
}

// Whether so many tracks are those of the notes, with 0 behind them.
pub fn tracks_right(case: Case<'_>, tracks: &Tracks, a: Ask, many: usize) -> bool {
    tracks.iter().enumerate().all(|(i, &track)| {
        // looked at before the call, for which what is asked is copied
        let due = if i < many { due_at(case, a, i) } else { 0 };
        usize::from(track) == due
    })
}
