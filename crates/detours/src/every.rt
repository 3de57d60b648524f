// Every route tried: one track after the other for each note, counted up from the last note like the wheels of a counter. So they
// come in the order of their numbers from the first note on, and the first that has the fewest changes is kept.

use crate::paths::{Best, Path, changes_of, track_byte};
use crate::spots::Held;
use second::totals::{get_or, less_one, more, product};

// How many routes there are, held or not: one of h tracks for each of m notes; 0 where there are very many.
pub fn routes_over(h: usize, m: usize) -> usize {
    (0..m).fold(1, |many, _| product(many, h))
}

// The next route: the last note goes to the next track; where it is in the last one, it begins anew and the note before it goes
// on.
fn turn_on(path: &mut Path, h: usize, m: usize) {
    let Some(wheels) = path.get_mut(..m) else {
        return;
    };
    for wheel in wheels.iter_mut().rev() {
        let track = usize::from(*wheel);
        if track < h {
            *wheel = track_byte(more(track, 1));
            return;
        }
        *wheel = 1;
    }
}

// Whether the track of each note holds it.
fn all_held(held: &Held, path: &Path, m: usize) -> bool {
    path.iter().zip(held).take(m).all(|(&track, row)| get_or(
        row,
        less_one(usize::from(track)),
        false,
    ))
}

// The better of a route and the best of those before it, which is kept where they are alike.
fn better(held: &Held, path: Path, m: usize, best: Best) -> Best {
    if !all_held(held, &path, m) {
        return best;
    }
    let changes = changes_of(&path, m);
    if changes < best.changes {
        return Best {
            path,
            changes,
            alike: 1,
        };
    }
    let mut kept = best;
    if changes == best.changes {
        kept.alike = more(best.alike, 1);
    }
    kept
}

// The best of all. Where no route is held there is none, and its changes are as many as the notes.
pub fn by_every(held: &Held, h: usize, m: usize) -> Best {
    let mut path = [1; 64];
    let mut best = Best {
        path,
        changes: m,
        alike: 0,
    };
    for _ in 0..routes_over(h, m) {
        best = better(held, path, m, best);
        turn_on(&mut path, h, m);
    }
    best
}
