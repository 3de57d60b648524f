// The notes of a theme in the columns in which they are sought.

use crate::answers::Why;
use crate::columns::column_of;
use second::asks::Ask;
use second::score::{score_of, sounds};
use second::totals::{apart, more};
use second::ways::Way;

// The lowest track that holds note i of a theme, p: all tracks are gone through from the highest down, and the last counts.
pub fn track_of(cells: &[u8], a: Ask, i: usize, p: u8) -> Option<usize> {
    let column = score_of(cells, a).column(column_of(cells, a, i));
    let mut lowest = None;
    for (track, &cell) in column.iter().enumerate().rev() {
        if sounds(cell, p, a.shift, a.way) {
            lowest = Some(more(track, 1));
        }
    }
    lowest
}

// Whether note p moved by shift c lies outside 0 to 127. Only exact asks.
fn leaves_range(way: Way, p: u8, c: i16) -> bool {
    way == Way::Exact && (0 < apart(0, p, c) || apart(127, p, c) < 0)
}

// The first note against which something speaks.
pub(crate) fn against_notes(cells: &[u8], theme: &[u8], a: Ask) -> Option<Why> {
    for (before, &p) in theme.iter().take(a.notes).enumerate() {
        let note = more(before, 1);
        if leaves_range(a.way, p, a.shift) {
            return Some(Why::Outside(note));
        }
        if track_of(cells, a, note, p).is_none() {
            return Some(Why::Absent(note));
        }
    }
    None
}
