// The fewest changes that lie ahead of each note in each track, from the last note backward. Then a track for each note, from the
// first on: the lowest of those with which there are the fewest.

use crate::paths::{Best, Path, changes_of, track_byte};
use crate::spots::{Held, NO_TRACK};
use second::totals::{get_or, more, put};

// The fewest changes that lie ahead of a note in each track; none where the track does not hold the note. There are fewer changes
// than notes.
type Row = [Option<u8>; 16];

type Ahead = [Row; 64];

const NOWHERE: Row = [None; 16];

// A track, from 0, and the changes from there on, with the one into it.
#[derive(Clone, Copy)]
struct Step {
    track: usize,
    changes: u8,
}

// The best step from a track into a note, by what lies ahead of it; of steps that are alike the one into the lowest track.
fn best_step(ahead: &Row, h: usize, from: Option<usize>) -> Option<Step> {
    let mut best: Option<Step> = None;
    for (track, &further) in ahead.iter().enumerate().take(h) {
        if let Some(further) = further {
            let turned = if from == Some(track) { 0 } else { 1 };
            let changes = further.saturating_add(turned);
            let better = match best {
                Some(step) => changes < step.changes,
                None => true,
            };
            if better {
                best = Some(Step { track, changes });
            }
        }
    }
    best
}

// The fewest changes ahead of a note in a track that holds it, where those ahead of the next note are known. None lie ahead of
// the last note.
fn fewest(next: Option<&Row>, h: usize, track: usize) -> Option<u8> {
    match next {
        None => Some(0),
        Some(row) => best_step(row, h, Some(track)).map(|step| step.changes),
    }
}

fn row_before(held: [bool; 16], next: Option<&Row>, h: usize) -> Row {
    let mut row = NOWHERE;
    for (track, place) in row.iter_mut().enumerate().take(h) {
        if get_or(&held, track, false) {
            *place = fewest(next, h, track);
        }
    }
    row
}

// By the notes' numbers, downward: each row is made of the one behind it. The table is filled in place, since it is large beside
// what is done with it.
fn look_ahead(held: &Held, ahead: &mut Ahead, h: usize, m: usize) {
    let mut next: Option<Row> = None;
    for i in (0..m).rev() {
        let row = row_before(get_or(held, i, NO_TRACK), next.as_ref(), h);
        put(ahead, i, row);
        next = Some(row);
    }
}

// The route. The first note comes from no track: a change more for each of its tracks, which makes none better.
fn follow(ahead: &Ahead, h: usize, m: usize) -> Path {
    let mut path = [0; 64];
    let mut from = None;
    for (place, row) in path.iter_mut().zip(ahead).take(m) {
        if let Some(step) = best_step(row, h, from) {
            *place = track_byte(more(step.track, 1));
            from = Some(step.track);
        }
    }
    path
}

pub fn by_ahead(held: &Held, h: usize, m: usize) -> Best {
    let mut ahead = [NOWHERE; 64];
    look_ahead(held, &mut ahead, h, m);
    let path = follow(&ahead, h, m);
    let changes = changes_of(&path, m);
    Best {
        path,
        changes,
        alike: 1,
    }
}
