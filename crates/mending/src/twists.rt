// Twists of what is lent beside the buffers to a question, the summary, and to an update, the changed column.

use jobs::changes::{Change, What};

// A summary that is wrong: one of its sixteen bits is turned; or it is 4096, 65535, 4095 or 0, whatever it should be.
fn wrong(right: u16, k: u16) -> u16 {
    match k {
        0..=15 => right ^ (1 << k),
        16 => 4096,
        17 => 65535,
        18 => 4095,
        19 => 0,
        _ => right,
    }
}

// The number that a change of one thing gives it; none where it is of another.
fn value_of(c: Option<Change>, what: What) -> Option<u16> {
    c.filter(|c| c.what == what).map(|c| c.value)
}

// The summary that is lent after a twist, by the right one; where it is no twist of the summary, the one that was lent before.
pub fn twist_summary(c: Option<Change>, right: u16, before: u16) -> u16 {
    value_of(c, What::Summary).map_or(before, |k| wrong(right, k))
}

// The changed column.
pub fn twist_column(c: Option<Change>, column: u16) -> u16 {
    value_of(c, What::ChangedColumn).unwrap_or(column)
}
