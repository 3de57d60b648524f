// A score by its columns.
//
// It is read from the whole lent buffer by its numbers of tracks and columns. Columns count from 1, and keep their numbers: those
// that hold no pitch are passed over one by one wherever the next one is sought.

ghost use Rattle.std.specs.Prelude.{◌≡◌, ◌↔◌, ◌+◌, ◌-◌, ◌<◌, ◌≤◌, ◌%◌, ◌^◌, ℕ, pos, ◌-ℤ◌, IsTrue, IsFalse, count_by};
ghost use Rattle.std.specs.List.{range_with_len};
ghost use Rattle.second.specs.Shifts.{Same};
ghost use Rattle.second.specs.Columns.{columns_in, column_in, heard_in};

use crate::asks::{Ask, columns_of};
use crate::totals::{apart, less_one, more, product};
use crate::ways::{Way, same};

#[derive(Clone, Copy)]
pub struct Score<'a> {
    pub cells: &'a [u8],
    pub h: usize,
    pub n: usize,
}

// The score that is asked about.
pub fn score_of(cells: &[u8], a: Ask) -> Score<'_>
    ensures cells { result.cells.now ≡ cells.now }
    ensures tracks { result.h ≡ a.h }
    ensures columns { result.n ≡ columns_in a.cells a.h }
{
    Score {
        cells,
        h: a.h,
        n: columns_of(a.cells, a.h),
    }
}

// Whether a cell is note p moved by c. Exact, and written: it is p + c. Octave: it lies some octaves from there.
pub fn sounds(cell: u8, p: u8, c: i16, way: Way) -> bool
    ensures { IsTrue result ↔ ((cell < 128) × Same way (pos cell -ℤ pos p -ℤ c)) }
{
    cell < 128 && same(way, apart(cell, p, c))
}

impl<'a> Score<'a> {
    // The cells of column j; none where they are not all there.
    pub fn column(self, j: usize) -> &'a [u8]
        ensures { result.now ≡ column_in self.entry.cells.now self.entry.h j }
    {
        let from = product(less_one(j), self.h);
        match self.cells.get(from..more(from, self.h)) {
            Some(column) => column,
            None => &[],
        }
    }

    // Whether column j holds note p moved by c.
    pub(crate) fn holds(self, j: usize, p: u8, c: i16, way: Way) -> bool {
        self.column(j).iter().any(|&cell| sounds(cell, p, c, way))
    }

    // Whether column j holds a pitch.
    pub fn heard(self, j: usize) -> bool
        ensures { result ≡ heard_in self.entry.cells.now self.entry.h j }
    {
        self.column(j).iter().any(|&cell| cell < 128)
    }

    // One behind the last column.
    pub(crate) fn behind(self) -> usize
        ensures { result ≡ (self.entry.n + 1) % 2 ^ 64 }
    {
        more(self.n, 1)
    }

    // The next column with a pitch after column j; one behind the last where none follows.
    // Of 2^64 - 1 columns, which no score has, one behind the last is 0.
    pub fn next_heard(self, j: usize) -> usize
        ensures within { result ≤ self.entry.n + 1 }
        ensures after { 0 < result → j ≤ self.entry.n → j < result }
        ensures heard { 0 < result → result ≤ self.entry.n → IsTrue (heard_in self.entry.cells.now self.entry.h result) }
        ensures passed { (k : ℕ) → j < k → k < result → IsFalse (heard_in self.entry.cells.now self.entry.h k) }
    {
        (more(j, 1)..self.behind())
            .find(|&k| self.heard(k))
            .unwrap_or(self.behind())
    }

    // The same so many times.
    pub fn onward(self, j: usize, steps: usize) -> usize
        ensures none { steps ≡ 0 → result ≡ j }
        ensures within { 0 < steps → result ≤ self.entry.n + 1 }
        ensures heard { 0 < steps → 0 < result → result ≤ self.entry.n →
            IsTrue (heard_in self.entry.cells.now self.entry.h result) }
    {
        (0..steps).fold(j, |k, _| self.next_heard(k))
    }

    // How many columns hold a pitch, from column j on.
    pub fn heard_from(self, j: usize) -> usize
        ensures within { result ≤ self.entry.n + 1 - j }
        ensures count { self.entry.n < usize.MAX →
            result ≡ count_by (heard_in self.entry.cells.now self.entry.h) (range_with_len j (self.entry.n + 1 - j)) }
    {
        (j..self.behind()).filter(|&k| self.heard(k)).count()
    }
}
