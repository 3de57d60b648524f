// Where the notes of a theme are sought, and which tracks hold them there.

use second::asks::Ask;
use second::score::{score_of, sounds};

// For each note of a theme and each track, whether the track holds the note.
pub type Held = [[bool; 16]; 64];

pub const NO_TRACK: [bool; 16] = [false; 16];

// The tracks of a column that hold note p.
fn holding(column: &[u8], p: u8, a: Ask) -> [bool; 16] {
    let mut held = NO_TRACK;
    for (place, &cell) in held.iter_mut().zip(column) {
        *place = sounds(cell, p, a.shift, a.way);
    }
    held
}

// The first note is sought in the pair's column, and each other one in the next column with a pitch.
pub(crate) fn tracks_held(cells: &[u8], theme: &[u8], a: Ask) -> Held {
    let score = score_of(cells, a);
    let mut held = [NO_TRACK; 64];
    let mut k = usize::from(a.column);
    for (row, &p) in held.iter_mut().zip(theme).take(a.notes) {
        *row = holding(score.column(k), p, a);
        k = score.next_heard(k);
    }
    held
}
