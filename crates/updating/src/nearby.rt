// The columns of a score, and the nearest with a pitch after a column and before it.

ghost use Rattle.std.specs.Prelude.{not, [], ◌≡◌, ◌+◌, ◌*◌, ◌-◌, ◌≤◌, ◌<◌, length, get_or, drop};
ghost use Rattle.theory.specs.Lists.{first};
ghost use Rattle.score.specs.Score.{column_at, cut, heard};
ghost use Rattle.updating.specs.Updating.{heard_before};

use passing::is_empty;

// The first n columns of the cells, which are as many as a score may have, and all there.
#[derive(Clone, Copy)]
pub struct Columns<'a> {
    pub cells: &'a [u8],
    pub tracks: usize,
    pub n: usize,
    ghost few: { n < 65536 },
    ghost whole: { n * tracks ≤ length cells.now },
}

impl<'a> Columns<'a> {
    // The cells of column k, from 1.
    pub fn column(&self, k: usize) -> &'a [u8]
        requires { (1 ≤ k) × (k ≤ self.now.n) }
        ensures { result.now ≡ get_or (cut self.now.n self.now.tracks self.now.cells.now) (k - 1) [] }
    {
        let end = k * self.tracks;
        let base = end - self.tracks;
        &self.cells[base..end]
    }

    // Whether column k, from 1, holds no pitch.
    fn empty_at(&self, k: usize) -> bool
        requires { (1 ≤ k) × (k ≤ self.now.n) }
        ensures { result ≡ not (heard (get_or (cut self.now.n self.now.tracks self.now.cells.now) (k - 1) [])) }
    {
        is_empty(self.column(k))
    }

    // The number of the first column with a pitch after column k, from 1, or n + 1 where no later one has one.
    pub fn heard_after(&self, k: usize) -> usize
        requires { k ≤ self.now.n }
        ensures { result ≡ k + 1 + first heard (drop k (cut self.now.n self.now.tracks self.now.cells.now)) }
    {
        // not `..=`, which asks at each column whether it was the last, and takes more than twice as long along one track
        for at in k + 1..self.n + 1 {
            if !self.empty_at(at) {
                return at;
            }
        }
        self.n + 1
    }

    // The number of the last column with a pitch before column c, from 1; 0 where no earlier one has one.
    pub fn heard_before(&self, c: usize) -> usize
        requires { (1 ≤ c) × (c ≤ self.now.n) }
        ensures { result ≡ heard_before (cut self.now.n self.now.tracks self.now.cells.now) (column_at c) }
    {
        for k in (1..c).rev() {
            if !self.empty_at(k) {
                return k;
            }
        }
        0
    }
}
