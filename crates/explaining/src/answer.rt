// What is answered: the reason, the tracks, and what the lent sets make of the column.

use score::Interval;
use seeking::MOST_SOUGHT;

// Whether the pair is listed, and if not, the first of the reasons against it that is true. The shift is none of the way's. The
// column is 0. From it on there are fewer columns with a pitch than the theme has notes, as from one above n. The column itself
// has no pitch. A note is not held, the first such one, named by its number from 1: moved, it lies outside 0 to 127, or it is
// absent from its column.
#[derive(Clone, Copy)]
pub enum Reason {
    Listed,
    NoShift,
    NoColumn,
    TooFew,
    Empty,
    Outside(u8),
    Absent(u8),
}

// An interval of the theme: its number, from 1 for the one between the first two notes, and its size, 0 to 11.
#[derive(Clone, Copy)]
pub struct Lacking {
    pub number: u8,
    pub size: Interval,
}

// What the lent sets make of the column, whatever the shift. Nothing is asked of them where the column fails one of its checks;
// otherwise it is kept, or dismissed by the first interval of the theme that is not in its set.
#[derive(Clone, Copy)]
pub enum Sifted {
    Unasked,
    Kept,
    Dismissed(Lacking),
}

// The answer. The tracks are those of the notes, the lowest that holds each, from 1; 0 behind the last note, and everywhere where
// the pair is not listed.
#[derive(Clone, Copy)]
pub struct Explanation {
    pub reason: Reason,
    pub tracks: [u8; MOST_SOUGHT],
    pub sifted: Sifted,
}
