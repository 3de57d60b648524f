// The prepared interval sets. The class set of each column is computed once, and a set is found of two class sets by
// turning the later one, so that the time goes by the cells and not by their pairs. The class sets of all columns come
// first, in the place of the sets: each of the loops then does one thing to column after column. A set belongs to a column
// and the next with a pitch. Where no column is empty that is the next column, and the class sets alone will do; elsewhere
// they are first carried over the empty columns.

ghost use Rattle.std.specs.Prelude.{◌≡◌, ◌+◌, ◌*◌, ◌≤◌, length};
ghost use Rattle.score.specs.Limits.{most_columns};
ghost use Rattle.score.specs.Score.{cut};
ghost use Rattle.score.specs.Sets.{interval_set, sets as setsOf};
ghost use Rattle.summing.specs.Summary.{summary_of};
ghost use Rattle.preparing.specs.Classes.{SetOf, Turned};
ghost use Rattle.preparing.specs.Preparing.{Prepares};

use crate::classes::{classes_of, gather};
use crate::heard::{any_empty, carry};
use score::checks::{bad_length, check_score};
use score::{HIGHEST_SET, MOST_COLUMNS, Refusal, Rule};
use summing::{Summary, summary_of};

// Fills the lent sets, all n - 1 of them: each of its column and the next with a pitch, 4095 where the column is empty or none
// follows. Gives their summary. Or refuses, 1, 2, 3 or 6, and writes nothing.
pub fn prepare(cells: &[u8], tracks: usize, sets: &mut [u16]) -> Result<Summary, Refusal>
    ensures { Prepares cells.now tracks sets.old result sets.new }
{
    check_score(cells, tracks)?;
    if bad_length(cells, tracks, sets.len()) {
        return Err(Refusal::new(Rule::SetsLength));
    }
    Ok(filled(cells, tracks, sets))
}

// All sets filled, and then their summary.
fn filled(cells: &[u8], tracks: usize, sets: &mut [u16]) -> Summary
    requires tracks_in_bounds { (length sets.old + 1) * tracks ≤ length cells.now }
    requires sets_len_bound { length sets.old ≤ most_columns }
    ensures value { result ≡ summary_of sets.new }
    ensures sets_after { sets.new ≡ setsOf (cut (length sets.old + 1) tracks cells.now) }
{
    fill(cells, tracks, sets);
    summary_of(sets)
}

// The set of two columns, whatever cells they have: a 0 for each interval from a pitch of the earlier to one of the later.
pub fn set_between(earlier: &[u8], later: &[u8]) -> u16
    ensures { result ≡ interval_set earlier.now later.now }
{
    set_of(classes_of(earlier), classes_of(later))
}

// Each set, of the class sets of its column and the next with a pitch. The first column is next to none, so it may be empty
// in both ways.
fn fill(cells: &[u8], tracks: usize, sets: &mut [u16])
    requires tracks_in_bounds { (length sets.old + 1) * tracks ≤ length cells.now }
    requires sets_len_bound { length sets.old ≤ most_columns }
    ensures { sets.new ≡ setsOf (cut (length sets.old + 1) tracks cells.now) }
{
    let first = gather(cells, tracks, sets);
    if any_empty(sets) {
        let later = carry(sets);
        turn_to(first, &later, sets);
    } else {
        turn(first, sets);
    }
}

// From the class sets to the sets, in their place: each of its column and the next.
fn turn(first: u16, sets: &mut [u16])
    ensures { Turned first sets.old sets.old sets.new }
{
    let mut earlier = first;
    for set in sets.iter_mut() {
        let later = *set;
        *set = set_of(earlier, later);
        earlier = later;
    }
}

// The same, where the later class sets stand apart: each of its column and the one that is carried to it.
fn turn_to(first: u16, later: &[u16; MOST_COLUMNS], others: &mut [u16])
    requires { length others.old ≤ most_columns }
    ensures { Turned first others.old later.now others.new }
{
    let mut earlier = first;
    // Not by a `zip` with the later ones: after it nothing would be known of what was written.
    for (k, other) in others.iter_mut().enumerate() {
        let own = *other;
        let next = later[k];
        *other = set_of(earlier, next);
        earlier = own;
    }
}

// The set of two columns by their class sets. From a pitch of class k the later column's classes are reached by what is
// left after turning their twelve bits down by k.
fn set_of(earlier: u16, later: u16) -> u16
    ensures { SetOf earlier later result }
{
    let mut reached: u16 = 0;
    for k in 0..12u32 {
        if (earlier >> k) & 1 == 1 {
            reached |= (later >> k) | (later << (12 - k));
        }
    }
    (reached & HIGHEST_SET) ^ HIGHEST_SET
}
