// The update after one column was changed: the sets that rest on that column are made anew, and all others stay. A set rests on
// its own column and on the next with a pitch, so these are the set of the changed column and that of the last column with a
// pitch before it.

ghost use Rattle.std.specs.Prelude.{Ok, ◌≡◌, ◌+◌, ◌*◌, ◌-◌, ◌≤◌, ◌<◌, length, get_or};
ghost use Rattle.score.specs.Refusals.{verdict};
ghost use Rattle.score.specs.Score.{column_at, cut, score_of};
ghost use Rattle.score.specs.Sets.{sets as setsOf};
ghost use Rattle.summing.specs.Summary.{summary_of};
ghost use Rattle.updating.specs.Updating.{row19, update_rows, updated_sets, rewritten, Updates};

use crate::nearby::Columns;
use preparing::set_between;
use score::{Column, HIGHEST_SET, Refusal, Rule, check_score, check_sets, columns_in};
use summing::{Summary, summary_of};

// Takes the score after the change, the changed column, and sets that were right before it. Rewrites the set of that column
// (column n has none) and the set of the last column with a pitch before it, if there is one; all other sets stay, wrong ones
// too. Gives the summary of the sets as they then are. Refuses 1, 2, 3, 6, 7 and 19, and then writes nothing.
pub fn update(
    cells: &[u8],
    tracks: usize,
    column: Column,
    sets: &mut [u16],
) -> Result<Summary, Refusal>
    ensures { Updates cells.now tracks column sets.old result sets.new }
{
    check_update(cells, tracks, column, sets)?;
    Ok(renew(cells, tracks, column, sets))
}

// Refusals 1, 2, 3, 6, 7 and 19, for the score, the lent sets and the changed column.
fn check_update(cells: &[u8], tracks: usize, column: Column, sets: &[u16]) -> Result<(), Refusal>
    ensures { result ≡ verdict (update_rows cells.now tracks column sets.now) }
{
    check_score(cells, tracks)?;
    check_sets(cells, tracks, sets)?;
    if no_column(column, columns_in(cells, tracks)) {
        return Err(Refusal::new(Rule::Column));
    }
    Ok(())
}

// Whether a score of n columns has no such column.
fn no_column(column: Column, n: usize) -> bool
    ensures { result ≡ (row19 n column).applies }
{
    let c = column.0 as usize;
    (c == 0) | (n < c)
}

// The sets that rest on the column made anew, and then the summary of all of them.
fn renew(cells: &[u8], tracks: usize, column: Column, sets: &mut [u16]) -> Summary
    requires { verdict (update_rows cells.now tracks column sets.old) ≡ Ok tt }
    ensures value { result ≡ summary_of sets.new }
    ensures sets_after { sets.new ≡ updated_sets (score_of cells.now tracks) column sets.old }
{
    rewrite_both(cells, tracks, column, sets);
    summary_of(sets)
}

// The set of the column, and that of the last with a pitch before it.
fn rewrite_both(cells: &[u8], tracks: usize, column: Column, sets: &mut [u16])
    requires { verdict (update_rows cells.now tracks column sets.old) ≡ Ok tt }
    ensures { sets.new ≡ updated_sets (score_of cells.now tracks) column sets.old }
{
    let n = columns_in(cells, tracks);
    let columns = Columns { cells, tracks, n };
    let c = column.0 as usize;
    columns.rewrite(c, sets);
    columns.rewrite(columns.heard_before(c), sets);
}

impl Columns<'_> {
    // Makes the set of column k anew. There is none of column 0, which is no column, and none of the last.
    fn rewrite(&self, k: usize, sets: &mut [u16])
        requires { length sets.old + 1 ≡ self.now.n }
        ensures { sets.new ≡ rewritten (cut self.now.n self.now.tracks self.now.cells.now) (column_at k) sets.old }
    {
        if 0 < k && k < self.n {
            sets[k - 1] = self.set_of(k);
        }
    }

    // The set of column k: of its pitches and those of the next column with a pitch; 4095 where none follows, or it has none
    // itself.
    fn set_of(&self, k: usize) -> u16
        requires { (1 ≤ k) × (k < self.now.n) }
        ensures { result ≡ get_or (setsOf (cut self.now.n self.now.tracks self.now.cells.now)) (k - 1) 0 }
    {
        let next = self.heard_after(k);
        if self.n < next {
            return HIGHEST_SET;
        }
        set_between(self.column(k), self.column(next))
    }
}
