// What is turned away of questions and updates: both ends of every range, each refusal alone, and each two together. Every one
// is a call on twists to an accepted one: a question in exact, an update, and a question in octave.

use jobs::changes::{Change, What, changed};
use jobs::job::{Due, Head};
use jobs::refused::{End, Fault, end_in, fault_in};
use jobs::shapes::ask_of;
use second::asks::Ask;
use second::ways::Way;

// The two calls.
#[derive(Clone, Copy)]
pub enum Asked {
    Question,
    Update,
}

// A call on two twists to an accepted one. Most twists are changes of what all calls are lent; two are of these calls alone: of
// the summary, and of the changed column.
#[derive(Clone, Copy)]
pub struct Twisted {
    pub asked: Asked,
    pub a: Ask,
    pub c: Option<Change>,
    pub d: Option<Change>,
    // what is written before, and whether the answer is written
    pub head: Head,
    pub loud: bool,
    // two refusals of which the one that comes first is due, where that is said
    pub due: Option<Due>,
}

// The ends of the ranges.
const ENDS: [End; 16] = [
    (What::Tracks, [0, 1, 16, 17]),
    (What::Columns, [0, 1, 2048, 2049]),
    (What::Cells, [9, 10, 11, 12]),
    (What::Cell, [127, 128, 254, 255]),
    (What::Notes, [1, 2, 32, 33]),
    (What::Note, [0, 127, 128, 255]),
    (What::Sets, [0, 3, 4, 5]),
    (What::Set, [0, 4095, 4096, 65535]),
    (What::Table, [0, 4095, 4096, 4097]),
    (What::Summary, [0, 1, 2, 3]),
    (What::Summary, [4, 5, 6, 7]),
    (What::Summary, [8, 9, 10, 11]),
    (What::Summary, [12, 13, 14, 15]),
    (What::Summary, [16, 17, 18, 19]),
    (What::ChangedColumn, [0, 1, 2, 4]),
    (What::ChangedColumn, [5, 6, 256, 65535]),
];

// The refusals of both calls in their order: 1 to 8, 12 and 19. Each has three faults.
const FAULTS: [[Fault; 3]; 10] = [
    [
        (What::Tracks, 0, 0),
        (What::Tracks, 0, 17),
        (What::Tracks, 0, 255),
    ],
    [
        (What::Cells, 0, 9),
        (What::Columns, 0, 0),
        (What::Columns, 0, 2049),
    ],
    [
        (What::Cell, 0, 128),
        (What::Cell, 5, 200),
        (What::Cell, 9, 254),
    ],
    [
        (What::Notes, 0, 1),
        (What::Notes, 0, 33),
        (What::Notes, 0, 0),
    ],
    [
        (What::Note, 0, 128),
        (What::Note, 1, 255),
        (What::Note, 2, 200),
    ],
    [(What::Sets, 0, 3), (What::Sets, 0, 5), (What::Sets, 0, 0)],
    [
        (What::Set, 0, 4096),
        (What::Set, 1, 65535),
        (What::Set, 3, 5000),
    ],
    [
        (What::Table, 0, 4095),
        (What::Table, 0, 4097),
        (What::Table, 0, 0),
    ],
    [
        (What::Summary, 0, 2),
        (What::Summary, 0, 16),
        (What::Summary, 0, 17),
    ],
    [
        (What::ChangedColumn, 0, 0),
        (What::ChangedColumn, 0, 6),
        (What::ChangedColumn, 0, 65535),
    ],
];

// How many there are: 64 ends at three places, and 121 pairs of refusals by nine pairs of faults, each by three calls.
const END_CALLS: usize = 576;

const DUE_CALLS: usize = 3267;

pub fn number_of_refused() -> usize {
    END_CALLS + DUE_CALLS
}

// The number of the refusal at a place in the order, from 1.
pub fn number_at(k: usize) -> usize {
    match k {
        9 => 12,
        10 => 19,
        _ => k,
    }
}

// Whether a call gives the refusal at a place in the order: the question 1 to 8 and 12, the update 1, 2, 3, 6, 7 and 19.
fn gives(asked: Asked, k: usize) -> bool {
    match asked {
        Asked::Question => matches!(k, 1..=9),
        Asked::Update => matches!(k, 1..=3 | 6 | 7 | 10),
    }
}

// The number of the first of two refusals that the call gives, where it gives one.
pub fn due_first(asked: Asked, d: Due) -> Option<usize> {
    d.low
        .into_iter()
        .chain(Some(d.high))
        .find(|&k| gives(asked, k))
        .map(number_at)
}

// The calls in turn.
const CALLS: [(Asked, Way); 3] = [
    (Asked::Question, Way::Exact),
    (Asked::Update, Way::Exact),
    (Asked::Question, Way::Octave),
];

// A call on twists to the k-th of them by turns. What is asked is of score K and theme 60 62 64. A head is written before the
// calls in exact, and before the one in octave.
fn call_on(k: usize, c: Option<Change>, d: Option<Change>, head: Head) -> Twisted {
    let (asked, way) = CALLS[k % 3];
    Twisted {
        asked,
        a: changed(changed(ask_of(2, 5, 3, way, 1), c), d),
        c,
        d,
        head: if k % 3 == 1 { Head::Quiet } else { head },
        loud: true,
        due: None,
    }
}

// Both ends of every range, at each place.
fn end_call(k: usize) -> Option<Twisted> {
    let e = k / 3;
    let c = end_in(&ENDS, e % 64, e / 64 % 3)?;
    Some(call_on(k, Some(c), None, Head::End(c)))
}

// Each refusal by itself, which stands here as a pair of twice the same, and each two together, each by each of its faults; the
// first of nine is written out.
fn due_call(k: usize) -> Option<Twisted> {
    let e = k / 3;
    let due = Due::of(e / 99, e / 9 % 11)?;
    let variant = e % 9;
    let low = due.low.and_then(|low| fault_in(&FAULTS, low, variant / 3));
    let high = fault_in(&FAULTS, due.high, variant % 3);
    let loud = variant == 0;
    let head = if loud { Head::Due(due) } else { Head::Quiet };
    Some(Twisted {
        loud,
        due: Some(due),
        ..call_on(k, low, high, head)
    })
}

// Every call by its number, where there is anything to try.
pub fn refused_call(k: usize) -> Option<Twisted> {
    if k < END_CALLS {
        return end_call(k);
    }
    due_call(k - END_CALLS)
}
