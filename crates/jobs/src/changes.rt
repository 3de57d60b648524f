// Changes to an accepted call, one number at a time: the sizes and numbers beside the buffers, or a place in one of them.

use crate::buffers::{Cells, Sets, Theme};
use second::asks::Ask;
use second::totals::{less_one, product, put};
use std::fmt;

// What can be changed. Where it is the tracks, there are three columns of them; where it is the columns, their sets change with
// them; where it is each set, the bits of the number say what they become. The summary and the changed column are of questions
// and updates alone; a summary's number says how it is wrong.
#[derive(Clone, Copy, PartialEq, Eq)]
pub enum What {
    Tracks,
    Columns,
    Cells,
    Cell,
    Notes,
    Note,
    Sets,
    Set,
    EachSet,
    Table,
    Room,
    ColumnRoom,
    ShiftRoom,
    Column,
    Shift,
    Summary,
    ChangedColumn,
}

// What is changed, at which place, and the number that it gets.
#[derive(Clone, Copy)]
pub struct Change {
    pub what: What,
    pub place: usize,
    pub value: u16,
}

// The shifts at the ends of the ranges, but the highest number.
const END_SHIFTS: [i16; 11] = [-128, -127, 128, 129, -1, 0, 12, 13, 1, 2, -32768];

// A shift at the end of a range, by its number.
pub fn end_shift(k: u16) -> i16 {
    END_SHIFTS.get(usize::from(k)).copied().unwrap_or(32767)
}

// A byte, cut to its width.
fn low(x: u16) -> u8 {
    (x % 256) as u8
}

// What is asked after a change.
pub fn changed(a: Ask, c: Option<Change>) -> Ask {
    let Some(Change { what, value, .. }) = c else {
        return a;
    };
    let x = usize::from(value);
    match what {
        What::Tracks => Ask {
            h: x,
            cells: product(x, 3),
            sets: 2,
            ..a
        },
        What::Columns => Ask {
            cells: product(x, 2),
            sets: less_one(x),
            ..a
        },
        What::Cells => Ask { cells: x, ..a },
        What::Notes => Ask { notes: x, ..a },
        What::Sets => Ask { sets: x, ..a },
        What::Table => Ask { table: x, ..a },
        What::Room => Ask {
            columns: x,
            shifts: x,
            ..a
        },
        What::ColumnRoom => Ask { columns: x, ..a },
        What::ShiftRoom => Ask { shifts: x, ..a },
        What::Column => Ask { column: value, ..a },
        What::Shift => Ask {
            shift: end_shift(value),
            ..a
        },
        _ => a,
    }
}

// The same at another bookmark.
pub fn at(a: Ask, column: u16, shift: i16) -> Ask {
    Ask { column, shift, ..a }
}

// The score and the theme after a change. They stay two parameters: the sets change in another call.
pub fn change_bytes(cells: &mut Cells, theme: &mut Theme, c: Option<Change>) {
    if let Some(Change { what, place, value }) = c {
        match what {
            What::Cell => put(cells, place, low(value)),
            What::Note => put(theme, place, low(value)),
            _ => {}
        }
    }
}

// Each of the first 16 sets by its bit of a number: 4095, with no interval, where it is 1, and 0, with every one, where it is 0.
fn put_each(sets: &mut Sets, bits: u16) {
    for (i, set) in sets.iter_mut().enumerate().take(16) {
        *set = if (bits >> i) % 2 == 1 { 4095 } else { 0 };
    }
}

// The sets after a change.
pub fn change_sets(sets: &mut Sets, c: Option<Change>) {
    if let Some(Change { what, place, value }) = c {
        match what {
            What::Set => put(sets, place, value),
            What::EachSet => put_each(sets, value),
            _ => {}
        }
    }
}

// Whether it has a p-th place.
pub fn placed(what: What, p: usize) -> bool {
    place_of(what, p).is_some()
}

// The p-th place, where it has one: of ten cells, three notes and four sets a first, a middle and a last one, of all else one.
pub fn place_of(what: What, p: usize) -> Option<usize> {
    let places: &[usize] = match what {
        What::Cell => &[0, 5, 9],
        What::Note => &[0, 1, 2],
        What::Set => &[0, 2, 3],
        _ => &[0],
    };
    places.get(p).copied()
}

impl fmt::Display for What {
    fn fmt<W: fmt::Write>(&self, f: &mut fmt::Formatter<W>) -> fmt::Result {
        f.write_str(match self {
            What::Tracks => "tracks",
            What::Columns => "columns",
            What::Cells => "cells",
            What::Cell => "cell",
            What::Notes => "notes",
            What::Note => "note",
            What::Sets => "sets",
            What::Set => "set",
            What::EachSet => "each-set",
            What::Table => "table",
            What::Room => "room",
            What::ColumnRoom => "room-of-columns",
            What::ShiftRoom => "room-of-shifts",
            What::Column => "bookmark-column",
            What::Shift => "bookmark-shift",
            What::Summary => "summary",
            What::ChangedColumn => "changed-column",
        })
    }
}
