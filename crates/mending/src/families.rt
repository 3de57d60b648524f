// The families of edits, one after the other: every edit by its number.

use crate::drawn::drawn_edit;
use crate::edit::Edit;
use crate::far::far_edit;
use crate::small::small_edit;
use crate::worked::{ROWS, worked_edit};

// The first edit of each family after those that are worked by hand: of 22,500 of small scores, and of 1,575 of far ones, each by
// four kinds of sets; and of the rounds.
const SMALL: usize = ROWS;

const FAR: usize = SMALL + 90000;

const DRAWN: usize = FAR + 6300;

const EDITS: usize = DRAWN + 12000;

pub fn number_of_edits() -> usize {
    EDITS
}

pub fn edit(k: usize) -> Edit {
    match k {
        0..SMALL => worked_edit(k),
        SMALL..FAR => small_edit(k - SMALL),
        FAR..DRAWN => far_edit(k - FAR),
        _ => drawn_edit(k.saturating_sub(DRAWN)),
    }
}
