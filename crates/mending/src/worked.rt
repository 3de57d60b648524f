// Edits that can be checked by hand: of one track and up to five columns, each written out with the sets before and after.

use crate::edit::{Edit, Kind, Lent};
use jobs::buffers::fill_by;

// How many there are.
pub const ROWS: usize = 10;

// An edit: the changed column, what it becomes, the lent sets, and the score.
type Row = (usize, usize, Lent, &'static [u8]);

const EDITS: [Row; ROWS] = [
    (2, 61, Lent::Right, &[60, 255, 62]),
    (2, 255, Lent::Right, &[60, 61, 62]),
    (5, 67, Lent::Right, &[60, 255, 255, 255, 255]),
    (5, 255, Lent::Right, &[60, 255, 255, 255, 62]),
    (1, 255, Lent::Right, &[60, 62, 255, 64, 65]),
    (1, 62, Lent::Right, &[255, 255, 60]),
    (2, 64, Lent::Right, &[255, 62]),
    (1, 62, Lent::Right, &[60]),
    (3, 65, Lent::NoInterval, &[60, 62, 64, 66, 68]),
    (3, 255, Lent::EveryInterval, &[60, 62, 64, 66, 68]),
];

fn row(k: usize) -> Row {
    EDITS[k % ROWS]
}

pub fn worked_edit(k: usize) -> Edit {
    let (column, into, lent, score) = row(k);
    Edit {
        kind: Kind::Worked,
        h: 1,
        n: score.len(),
        score: k,
        column,
        into,
        lent,
    }
}

// Puts the score into the lent buffer; behind it there are cells of 0.
pub fn load_worked(cells: &mut [u8], k: usize) {
    let (.., score) = row(k);
    fill_by(cells, 5, |i| score.get(i).copied().unwrap_or(0));
}

// What the changed column becomes.
pub fn worked_change(e: Edit) -> u8 {
    (e.into % 256) as u8
}
