// Small steps that have an answer for every argument, so that what is made of them needs no bounds: who asks says what stands
// at a place that is not there, and such a place is not written.

ghost use Rattle.std.specs.Prelude.{◌≡◌, ◌+◌, ◌-◌, ◌%◌, ◌^◌, ◌↔◌, pos, ◌-ℤ◌, IsTrue, int_rem, slice_index_or, slice_set};
ghost use Rattle.second.specs.Columns.{small_product};

// A cell with no pitch. So is one that is not there.
pub const REST: u8 = 255;

// What stands at a place, or something else where there is no such place.
pub fn get_or<T: Copy>(s: &[T], i: usize, otherwise: T) -> T
    ensures { result ≡ slice_index_or s.now i otherwise }
{
    s.get(i).copied().unwrap_or(otherwise)
}

// Writes a value at a place, where there is such a place; the others stay as they were.
pub fn put<T: Copy>(s: &mut [T], i: usize, x: T)
    ensures { s.new ≡ slice_set s.old i x }
{
    // not by `get_mut`: of what is written through it a contract knows nothing
    if i < s.len() {
        s[i] = x;
    }
}

// Adds to a count.
pub fn add(count: &mut u64, more: u64) {
    *count = count.wrapping_add(more);
}

pub fn more(x: usize, y: usize) -> usize
    ensures { result ≡ (x + y) % 2 ^ 64 }
{
    x.wrapping_add(y)
}

pub fn less_one(x: usize) -> usize
    ensures { result ≡ x - 1 }
{
    x.saturating_sub(1)
}

// A product of two numbers of 16 bits; of larger ones 0.
pub fn product(x: usize, y: usize) -> usize
    ensures { result ≡ small_product x y }
{
    if x < 65536 && y < 65536 { x * y } else { 0 }
}

// Where the cell of a column and a track lies: columns count from 1, tracks from 0.
pub fn place(j: usize, h: usize, track: usize) -> usize {
    more(product(less_one(j), h), track)
}

// t - p - c
pub fn apart(t: u8, p: u8, c: i16) -> i32
    ensures { result ≡ pos t -ℤ pos p -ℤ c }
{
    i32::from(t) - i32::from(p) - i32::from(c)
}

// Whether a number is divisible by 12.
pub fn twelves(z: i32) -> bool
    ensures { IsTrue result ↔ int_rem z (pos 12) ≡ pos 0 }
{
    z % 12 == 0
}

// A shift raised by one.
pub fn raised(c: i16) -> i16 {
    c.saturating_add(1)
}
