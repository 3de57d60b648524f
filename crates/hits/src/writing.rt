// What is written into the two lent buffers: from a place on the numbers of columns in one, and the shifts in the other. Nothing
// is written where not everything fits.

ghost use Rattle.std.specs.Prelude.{◌≡◌, ◌+◌, ◌≤◌, leb, length};
ghost use Rattle.std.specs.Int.Count.{ones};
ghost use Rattle.theory.specs.Marks.{marks};
ghost use Rattle.masks.specs.Masks.{value, low_code};
ghost use Rattle.hits.specs.Writing.{word_codes, start_codes, fitting, Puts};

use masks::Word;
use score::{Column, HIGHEST_PITCH, Pitch};
use ways::{HIGHEST_CODE, Way, shift_of};

// A buffer of this length has room for so many hits from a place on.
fn has_room(length: usize, from: usize, hits: usize) -> bool
    ensures { result ≡ leb (from + hits) length }
{
    from <= length && hits <= length - from
}

// Writes the codes that a half of a word marks, from a place on, and gives the place behind them.
fn put_marked(
    columns: &mut [u16],
    shifts: &mut [i16],
    from: usize,
    half: u64,
    first: u16,
    column: Column,
    way: Way,
) -> usize
    requires { (from + ones half ≤ length columns.old) × (from + ones half ≤ length shifts.old) × (first ≤ 191) }
    ensures { Puts way column.0 (marks 64 first half) from columns.old shifts.old result columns.new shifts.new }
{
    let mut left = half;
    let mut at = from;
    // a bit a turn, the lowest first
    while left != 0 {
        let i = left.trailing_zeros();
        columns[at] = column.0;
        shifts[at] = shift_of(way, first + i as u16);
        left -= 1 << i;
        at += 1;
    }
    at
}

// The code that the lowest bit of a word stands for.
fn low_code(way: Way, first: Pitch) -> u16
    requires { first.0 ≤ 127 }
    ensures { result ≡ low_code way first }
{
    match way {
        Way::Exact => u16::from(HIGHEST_PITCH - first.0),
        Way::Octave => 0,
    }
}

// Writes the hits of a column that a word marks, from a place on, and gives the place behind them. Nothing is written, and the
// place is given back, where a buffer has no room for all of them or the first note is no pitch.
pub fn put_hits(
    columns: &mut [u16],
    shifts: &mut [i16],
    from: usize,
    word: Word,
    first: Pitch,
    column: Column,
    way: Way,
) -> usize
    ensures { Puts way column.0 (fitting (word_codes way first (value word.low word.high)) from columns.old shifts.old) from columns.old shifts.old result columns.new shifts.new }
{
    let Word { low, high } = word;
    // most columns have none
    if (low | high) == 0 {
        return from;
    }
    if HIGHEST_PITCH < first.0 {
        return from;
    }
    let hits = (low.count_ones() + high.count_ones()) as usize;
    // both buffers need room for all of them
    if !has_room(columns.len().min(shifts.len()), from, hits) {
        return from;
    }
    let code = low_code(way, first);
    let middle = put_marked(columns, shifts, from, low, code, column, way);
    put_marked(columns, shifts, middle, high, code + 64, column, way)
}

// Writes one hit at its place and gives the next place. What is no hit, a code above 255 and a hit for which a buffer has no room
// are not written, and the place is given back.
pub fn keep(
    columns: &mut [u16],
    shifts: &mut [i16],
    at: usize,
    hit: bool,
    column: Column,
    way: Way,
    code: u16,
) -> usize
    ensures { Puts way column.0 (fitting (start_codes hit code) at columns.old shifts.old) at columns.old shifts.old result columns.new shifts.new }
{
    if !hit || HIGHEST_CODE < code || columns.len() <= at || shifts.len() <= at {
        return at;
    }
    columns[at] = column.0;
    shifts[at] = shift_of(way, code);
    at + 1
}
