// The update of the sets of a score in which one column was changed: what it leaves, and what is turned away.

use crate::asks::{Ask, columns_of};
use crate::away::{Away, of_length, of_score, of_sets, row_where};
use crate::finder::set_right;
use crate::score::score_of;
use crate::totals::more;

// Whether the sets are what an update leaves of the old ones, after column c of the score was changed: that column's, and that of
// the nearest one with a pitch before it, are those of the score as it is now, and all others are the ones that they were.
pub fn update_right(cells: &[u8], old: &[u16], sets: &[u16], a: Ask, c: u16) -> bool {
    let score = score_of(cells, a);
    let changed = usize::from(c);
    // all columns before it are gone through
    let nearest = (1..changed).filter(|&k| score.heard(k)).last();
    sets.iter().zip(old).take(a.sets).enumerate().all(|(i, (&set, &before))| {
        let k = more(i, 1);
        if k == changed || nearest == Some(k) {
            set_right(score, k, set)
        } else {
            set == before
        }
    })
}

// What an update is to be turned away with: 1, 2, 3, 6, 7, and then 19.
pub fn update_refusal(cells: &[u8], sets: &[u16], a: Ask, c: u16) -> Result<(), Away> {
    of_score(cells, a.cells, a.h)?;
    of_length(a)?;
    of_sets(sets, a.sets)?;
    row_where(
        19,
        !(1..=columns_of(a.cells, a.h)).contains(&usize::from(c)),
    )
}
