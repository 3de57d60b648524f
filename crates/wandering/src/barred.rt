// What is turned away of routes: both ends of every range, each refusal alone, and each two together. Every one is a call on
// changes to an accepted one: score K with theme 60 69 64, at the first column with shift 0, with four places lent.

use jobs::buffers::{Cells, Theme};
use jobs::changes::{Change, What, at, change_bytes, changed};
use jobs::job::Due;
use jobs::refused::{End, Fault, end_in, fault_in};
use jobs::shapes::{ask_of, way_of};
use jobs::worked::load;
use second::asks::Ask;

// A call on two changes to the accepted one.
#[derive(Clone, Copy)]
pub struct Barred {
    pub a: Ask,
    pub c: Option<Change>,
    pub d: Option<Change>,
    // two refusals of which the first is due, where the call is written out
    pub loud: Option<Due>,
}

// The ends of the ranges. The room is the places lent, and the bookmark is the pair.
const ENDS: [End; 14] = [
    (What::Tracks, [0, 1, 16, 17]),
    (What::Columns, [0, 1, 2048, 2049]),
    (What::Cells, [9, 10, 11, 12]),
    (What::Cell, [127, 128, 254, 255]),
    (What::Notes, [1, 2, 32, 33]),
    (What::Note, [0, 127, 128, 255]),
    (What::Room, [0, 1, 2, 3]),
    (What::Room, [4, 5, 32, 80]),
    (What::Column, [0, 1, 2, 3]),
    (What::Column, [4, 5, 6, 7]),
    (What::Column, [256, 257, 65281, 65535]),
    (What::Shift, [0, 1, 2, 3]),
    (What::Shift, [4, 5, 6, 7]),
    (What::Shift, [8, 9, 10, 11]),
];

// The refusals in their order: 1 to 5, 13 and 14. Each has three faults.
const FAULTS: [[Fault; 3]; 7] = [
    [
        (What::Tracks, 0, 0),
        (What::Tracks, 0, 17),
        (What::Tracks, 0, 255),
    ],
    [
        (What::Cells, 0, 9),
        (What::Columns, 0, 0),
        (What::Columns, 0, 2049),
    ],
    [
        (What::Cell, 0, 128),
        (What::Cell, 5, 200),
        (What::Cell, 9, 254),
    ],
    [
        (What::Notes, 0, 1),
        (What::Notes, 0, 33),
        (What::Notes, 0, 0),
    ],
    [
        (What::Note, 0, 128),
        (What::Note, 1, 255),
        (What::Note, 2, 200),
    ],
    [
        (What::Column, 0, 0),
        (What::Column, 0, 4),
        (What::Shift, 0, 3),
    ],
    [(What::Room, 0, 2), (What::Room, 0, 0), (What::Room, 0, 1)],
];

// How many there are: 56 ends at three places, and 64 pairs of refusals by nine pairs of faults, each in three ways.
const END_CALLS: usize = 504;

const DUE_CALLS: usize = 1728;

pub fn number_of_barred() -> usize {
    END_CALLS + DUE_CALLS
}

// The number of the refusal at a place in the order, from 1.
pub fn numbered(k: usize) -> usize {
    match k {
        6 => 13,
        7 => 14,
        _ => k,
    }
}

// A call on two changes, in the k-th way by turns.
fn call_on(k: usize, c: Option<Change>, d: Option<Change>, loud: Option<Due>) -> Barred {
    let accepted = at(ask_of(2, 5, 3, way_of(k % 3), 4), 1, 0);
    Barred {
        a: changed(changed(accepted, c), d),
        c,
        d,
        loud,
    }
}

// Both ends of every range, at each place, in all ways.
fn end_call(k: usize) -> Option<Barred> {
    let c = end_in(&ENDS, k / 3 % 56, k / 168 % 3)?;
    Some(call_on(k, Some(c), None, None))
}

// Each refusal by itself, and each two together, each by each of its faults, in all ways; in exact the first of nine is written
// out.
fn due_call(k: usize) -> Option<Barred> {
    let due = Due::of(k / 216, k / 27 % 8)?;
    if due.low == Some(due.high) {
        return None;
    }
    let variant = k / 3 % 9;
    let low = due.low.and_then(|low| fault_in(&FAULTS, low, variant / 3));
    let high = fault_in(&FAULTS, due.high, variant % 3);
    Some(call_on(k, low, high, (k % 27 == 0).then_some(due)))
}

// Every call by its number, where there is anything to try.
pub fn barred_call(k: usize) -> Option<Barred> {
    if k < END_CALLS {
        return end_call(k);
    }
    due_call(k - END_CALLS)
}

// A call put into the lent buffers.
pub fn arrange_barred(cells: &mut Cells, theme: &mut Theme, b: Barred) {
    load(cells, 0);
    theme[..3].copy_from_slice(&[60, 69, 64]);
    change_bytes(cells, theme, b.c);
    change_bytes(cells, theme, b.d);
}
