// What is turned away: both ends of every range, each refusal alone, and each two together. Every job here is one call on
// changes to an accepted one: of the three in turn, or, in written, of the plain one.

ghost use Rattle.std.specs.Prelude.{◌≡◌, ◌↔◌, ◌-◌, ◌/◌, ◌<◌, ◌≤◌, IsSome, IfSome, Some, length, slice_get};

use crate::changes::{Change, What, changed, place_of};
use crate::job::{CALLS, Due, Head, Job, Source};
use crate::shapes::{ask_of, way_of};
use second::asks::{Ask, Call};
use second::ways::{Way, counted};

// The end of a range, or both, or two ends: what is changed, and four numbers that it gets.
pub type End = (What, [u16; 4]);

// A fault: what is changed, its place, and the number.
pub type Fault = (What, usize, u16);

// The ends of the ranges. A shift goes by its own number.
const ENDS: [End; 16] = [
    (What::Tracks, [0, 1, 16, 17]),
    (What::Columns, [0, 1, 2048, 2049]),
    (What::Cells, [9, 10, 11, 12]),
    (What::Cell, [127, 128, 254, 255]),
    (What::Notes, [1, 2, 32, 33]),
    (What::Note, [0, 127, 128, 255]),
    (What::Sets, [0, 3, 4, 5]),
    (What::Set, [0, 4095, 4096, 65535]),
    (What::Table, [0, 4095, 4096, 4097]),
    (What::Room, [0, 1, 2, 3]),
    (What::ColumnRoom, [0, 3, 4, 5]),
    (What::ShiftRoom, [0, 3, 4, 5]),
    (What::Column, [0, 1, 6, 7]),
    (What::Shift, [0, 1, 2, 3]),
    (What::Shift, [4, 5, 6, 7]),
    (What::Shift, [8, 9, 10, 11]),
];

// Three faults for each refusal from 1 to 10.
const FAULTS: [[Fault; 3]; 10] = [
    [
        (What::Tracks, 0, 0),
        (What::Tracks, 0, 17),
        (What::Tracks, 0, 255),
    ],
    [
        (What::Cells, 0, 9),
        (What::Columns, 0, 0),
        (What::Columns, 0, 2049),
    ],
    [
        (What::Cell, 0, 128),
        (What::Cell, 5, 200),
        (What::Cell, 9, 254),
    ],
    [
        (What::Notes, 0, 1),
        (What::Notes, 0, 33),
        (What::Notes, 0, 0),
    ],
    [
        (What::Note, 0, 128),
        (What::Note, 1, 255),
        (What::Note, 2, 200),
    ],
    [(What::Sets, 0, 3), (What::Sets, 0, 5), (What::Sets, 0, 0)],
    [
        (What::Set, 0, 4096),
        (What::Set, 1, 65535),
        (What::Set, 3, 5000),
    ],
    [
        (What::Table, 0, 4095),
        (What::Table, 0, 4097),
        (What::Table, 0, 0),
    ],
    [
        (What::Room, 0, 0),
        (What::ColumnRoom, 0, 3),
        (What::ShiftRoom, 0, 2),
    ],
    [
        (What::Column, 0, 0),
        (What::Column, 0, 7),
        (What::Shift, 0, 3),
    ],
];

// How many jobs try all three calls, in exact and octave: 64 ends at three places, and 121 pairs of refusals by nine pairs of
// faults. The jobs in written come after them.
const THREEFOLD_ENDS: usize = 1152;

const THREEFOLD_DUES: usize = 6534;

// The k-th of such ends, at its p-th place, where it has one.
pub fn end_in(ends: &[End], k: usize, p: usize) -> Option<Change>
    ensures { IsSome result → k / 4 < length ends.now }
{
    let &(what, values) = ends.get(k / 4)?;
    Some(Change {
        what,
        place: place_of(what, p)?,
        value: values[k % 4],
    })
}

// The fault of a refusal by its number from 1, and by its variant.
pub fn fault_in(faults: &[[Fault; 3]], number: usize, variant: usize) -> Option<Change>
    ensures some { IsSome result ↔ ((0 < number) × (number ≤ length faults.now) × (variant < 3)) }
    ensures fault { IfSome result (λ c. IfSome (slice_get faults.now (number - 1)) (λ row.
        slice_get row variant ≡ Some (c.what, c.place, c.value))) }
{
    let row = faults.get(number.checked_sub(1)?)?;
    let &(what, place, value) = row.get(variant)?;
    Some(Change { what, place, value })
}

// An accepted call: score K, theme 60 62 64, room 4, from the first bookmark.
fn accepted(way: Way) -> Ask {
    ask_of(2, 5, 3, way, 4)
}

// Whether a call gives a refusal: preparation 1, 2, 3, 6; plain 1 to 5, 9, 10; quick 1 to 10.
fn gives(call: Call, number: usize) -> bool {
    match call {
        Call::Prepare => matches!(number, 1..=3 | 6),
        Call::Quick => true,
        _ => !matches!(number, 6..=8),
    }
}

// The first of two refusals that the call gives, where it gives one.
pub fn due(call: Call, d: Due) -> Option<usize> {
    d.low
        .into_iter()
        .chain(Some(d.high))
        .find(|&number| gives(call, number))
}

// A call on the accepted one after two changes.
fn refused_job(way: Way, c: Option<Change>, d: Option<Change>, call: Call, head: Head) -> Job {
    let a = changed(changed(accepted(way), c), d);
    Job {
        c,
        d,
        deep: true,
        head: if first_call(way, call) {
            head
        } else {
            Head::Quiet
        },
        ..Job::quiet(Source::Worked, 0, 0, a, call)
    }
}

// Whether a call is the first of those that are tried in a way: of the three, or of the plain one alone. A head is written
// before it.
fn first_call(way: Way, call: Call) -> bool {
    match call {
        Call::Prepare => true,
        Call::Plain => !counted(way),
        _ => false,
    }
}

// Whether it is the last of them. One function for both is no plainer: the match is all that each of them is.
pub fn last_call(way: Way, call: Call) -> bool {
    match call {
        Call::Quick => true,
        Call::Plain => !counted(way),
        _ => false,
    }
}

// Before a middle and a last place: the highest number that is right, at the first one.
fn highest(what: What, p: usize) -> Option<Change> {
    (0 < p).then_some(Change {
        what,
        place: 0,
        value: if what == What::Set { 4095 } else { 127 },
    })
}

// The e-th end of a range, of 64 at each place.
fn ended(way: Way, e: usize, call: Call) -> Option<Job> {
    let p = e / 64 % 3;
    let c = end_in(&ENDS, e % 64, p)?;
    Some(Job {
        loud: true,
        ..refused_job(way, Some(c), highest(c.what, p), call, Head::End(c))
    })
}

// Both ends of every range, at each place, in all ways.
pub fn end_job(k: usize) -> Option<Job> {
    if k < THREEFOLD_ENDS {
        return ended(way_of(k / 576), k % 576 / 3, CALLS[k % 3]);
    }
    ended(Way::Written, k - THREEFOLD_ENDS, Call::Plain)
}

// The e-th pair of faults, of nine for each two refusals; the first of the nine is written out.
fn faulty(way: Way, e: usize, call: Call) -> Option<Job> {
    let due = Due::of(e / 99, e / 9 % 11)?;
    let variant = e % 9;
    let low = due.low.and_then(|low| fault_in(&FAULTS, low, variant / 3));
    let high = fault_in(&FAULTS, due.high, variant % 3);
    let loud = variant == 0;
    let head = if loud { Head::Due(due) } else { Head::Quiet };
    Some(Job {
        loud,
        due: Some(due),
        ..refused_job(way, low, high, call, head)
    })
}

// Each refusal by itself, which stands here as a pair of twice the same, and each two together, each by each of its faults, in
// all ways.
pub fn due_job(k: usize) -> Option<Job> {
    if k < THREEFOLD_DUES {
        return faulty(way_of(k / 3267), k % 3267 / 3, CALLS[k % 3]);
    }
    faulty(Way::Written, k - THREEFOLD_DUES, Call::Plain)
}
