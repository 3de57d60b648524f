// The question: whether the quick list by the lent sets has a pair. With the score's own sets that list is the full one.
//
// Where the lent summary is that of the sets and has all intervals of the theme, one page of one place tells, which also checks
// what is lent. Otherwise what is lent is checked here: a wrong summary is refused, and a right one that lacks an interval means
// no, without a search.

ghost use Rattle.std.specs.Prelude.{Ok, true, false, not, [], ◌∷◌, ◌++◌, ◌≡◌, eqb, length};
ghost use Rattle.score.specs.Refusals.{row};
ghost use Rattle.ways.specs.declared.way.Way.{Way};
ghost use Rattle.asking.specs.Refusals.{with_sets_rows};
ghost use Rattle.filter.specs.Limits.{word_bits};
ghost use Rattle.filter.specs.Table.{table_after};
ghost use Rattle.summing.specs.Summary.{summary as summaryIn};
ghost use Rattle.occurring.specs.Occurring.{lacking, OccursBy, Occurs};

use crate::lacking::lacks;
use asking::check_with_sets;
use filter::fill_table;
use score::{Refusal, Rule};
use search::{AnyWay, Bookmark, Way, quick_page};
use summing::{Summary, summary_of};

// Whether the theme stands anywhere, in exact or octave, by the lent sets and their summary: whether the quick list has a pair.
// With the score's own sets that is whether the theme stands somewhere; with others it may stand where they make no candidate.
// Fills the theme's table, whatever it held, also where the answer is no. Refuses 1 to 8, and 12 for a summary that is not that
// of the lent sets, and then writes nothing.
pub fn occurs(
    cells: &[u8],
    tracks: usize,
    theme: &[u8],
    way: Way,
    sets: &[u16],
    summary: Summary,
    table: &mut [u32],
) -> Result<bool, Refusal>
    ensures { Occurs cells.now tracks theme.now way sets.now summary table.old result table.new }
{
    let right = is_summary(sets, summary);
    let lacking = lacks(theme, summary);
    if right & !lacking {
        return by_page(cells, tracks, theme, way, sets, table);
    }
    without_walk(cells, tracks, theme, sets, right, table)
}

// Whether the summary is that of the sets.
fn is_summary(sets: &[u16], summary: Summary) -> bool
    ensures { result ≡ eqb (summaryIn sets.now) summary.0 }
{
    summary_of(sets).0 == summary.0
}

// The answer by a page of one place from the first bookmark on.
fn by_page(
    cells: &[u8],
    tracks: usize,
    theme: &[u8],
    way: Way,
    sets: &[u16],
    table: &mut [u32],
) -> Result<bool, Refusal>
    ensures { OccursBy (with_sets_rows cells.now tracks theme.now sets.now (length table.old)) cells.now tracks theme.now way sets.now table.old result table.new }
{
    let mut columns = [0u16; 1];
    let mut shifts = [0i16; 1];
    let first = Bookmark::first(AnyWay::Moved(way));
    let t = quick_page(
        cells,
        tracks,
        theme,
        way,
        first,
        sets,
        table,
        &mut columns,
        &mut shifts,
    )?;
    Ok(t.written != 0)
}

// The answer where the summary is not right, or lacks an interval of the theme: then neither exact nor octave lists a pair.
fn without_walk(
    cells: &[u8],
    tracks: usize,
    theme: &[u8],
    sets: &[u16],
    right: bool,
    table: &mut [u32],
) -> Result<bool, Refusal>
    requires { right ≡ true → lacking theme.now (summaryIn sets.now) ≡ true }
    ensures { (way : Way) → OccursBy (with_sets_rows cells.now tracks theme.now sets.now (length table.old) ++ row Rule.Summary (not right) 0 ∷ []) cells.now tracks theme.now way sets.now table.old result table.new }
{
    check_with_sets(cells, tracks, theme, sets, table.len())?;
    if !right {
        return Err(Refusal::new(Rule::Summary));
    }
    nowhere(theme, table)
}

// The answer is no, and the table is filled.
fn nowhere(theme: &[u8], table: &mut [u32]) -> Result<bool, Refusal>
    ensures value { result ≡ Ok false }
    ensures table_after { table.new ≡ table_after word_bits theme.now table.old }
{
    fill_table(theme, table);
    Ok(false)
}
