// The columns and shifts at which a score is explained. Of a small one these are all: every column from 0 to two behind the last,
// and the highest number; every shift from two below the lowest of exact to two above its highest, and the two farthest numbers,
// in octave too. Of a larger one they are a few about a pair.

use second::totals::{less_one, more, product, raised};
use second::ways::{Way, lowest, shift_at, span};

// How many shifts there are at each column of a small score.
pub const SHIFTS: usize = 261;

// How many pairs of a small score of n columns are tried.
pub fn all_pairs(n: usize) -> usize {
    product(more(n, 4), SHIFTS)
}

// A column as it is asked for.
fn numbered(column: usize) -> u16 {
    (column % 65536) as u16
}

// The k-th column of a small score.
pub fn each_column(n: usize, k: usize) -> u16 {
    if more(n, 2) < k {
        return 65535;
    }
    numbered(k)
}

// The s-th shift.
pub fn each_shift(s: usize) -> i16 {
    match s {
        0 => -32768,
        1 => -129,
        2 => -128,
        3 => 129,
        4 => 32767,
        _ => shift_at(Way::Exact, ((s - 5) % 256) as u8),
    }
}

// How many shifts there are at each of the seven columns of a larger score.
pub const FEW_SHIFTS: usize = 9;

// How many pairs of a larger score are tried.
pub fn few_pairs() -> usize {
    7 * FEW_SHIFTS
}

// The k-th column of a larger score of n, about a given one.
pub fn few_column(column: usize, n: usize, k: usize) -> u16 {
    match k {
        0 => 0,
        1 => numbered(less_one(column)),
        2 => numbered(column),
        3 => numbered(more(column, 1)),
        4 => numbered(n),
        5 => numbered(more(n, 1)),
        _ => 65535,
    }
}

// The s-th shift, about a given one: the ends of the way's shifts, and numbers beyond.
pub fn few_shift(way: Way, c: i16, s: usize) -> i16 {
    match s {
        0 => -32768,
        1 => lowest(way),
        2 => c,
        3 => raised(c),
        4 => -1,
        5 => 0,
        6 => 11,
        7 => shift_at(way, span(way)),
        _ => 32767,
    }
}
