// What is turned away, read off the requirement's table row by row, beside the library and without it.

ghost use Rattle.std.specs.Prelude.{◌≡◌, IsTrue, IsFalse, MatchResult};

use crate::asks::{Ask, Call, Case, columns_of};
use crate::totals::{less_one, more};
use crate::ways::marked_by;

// The number of a refusal and its place.
#[derive(Clone, Copy, PartialEq, Eq)]
pub struct Away {
    pub number: u8,
    pub place: usize,
}

// A row that names no place, where it holds.
pub fn row_where(number: u8, holds: bool) -> Result<(), Away>
    ensures { MatchResult result (λ _. IsFalse holds) (λ away. IsTrue holds × away.number ≡ number × away.place ≡ 0) }
{
    if holds {
        Err(Away { number, place: 0 })
    } else {
        Ok(())
    }
}

// A row that names a place, where there is one.
fn row_at(number: u8, place: Option<usize>) -> Result<(), Away> {
    match place {
        Some(place) => Err(Away { number, place }),
        None => Ok(()),
    }
}

// Rows 1 to 3.
pub fn of_score(cells: &[u8], many: usize, h: usize) -> Result<(), Away> {
    row_where(1, !(1..=16).contains(&h))?;
    row_where(
        2,
        many == 0 || !many.is_multiple_of(h) || 2048 < columns_of(many, h),
    )?;
    row_at(
        3,
        cells
            .iter()
            .take(many)
            .position(|&cell| (128..=254).contains(&cell)),
    )
}

// Rows 4 and 5.
pub fn of_theme(theme: &[u8], m: usize) -> Result<(), Away> {
    row_where(4, !(2..=32).contains(&m))?;
    row_at(5, theme.iter().take(m).position(|&note| 127 < note))
}

// Row 6.
pub fn of_length(a: Ask) -> Result<(), Away> {
    row_where(6, a.sets != less_one(columns_of(a.cells, a.h)))
}

// Row 7.
pub fn of_sets(sets: &[u16], many: usize) -> Result<(), Away> {
    row_at(7, sets.iter().take(many).position(|&set| 4095 < set))
}

// Row 8.
pub fn of_table(words: usize) -> Result<(), Away> {
    row_where(8, words != 4096)
}

// Rows 9 and 10.
fn of_page(a: Ask) -> Result<(), Away> {
    let n = columns_of(a.cells, a.h);
    row_where(9, a.columns == 0 || a.columns != a.shifts)?;
    row_where(
        10,
        !(1..=more(n, 1)).contains(&usize::from(a.column)) || !marked_by(a.way, a.shift),
    )
}

// What a call is to be turned away with: preparation 1, 2, 3, 6; plain 1 to 5, 9, 10; quick 1 to 10.
pub fn refusal(case: Case<'_>, a: Ask, call: Call) -> Result<(), Away> {
    of_score(case.cells, a.cells, a.h)?;
    if call == Call::Prepare {
        return of_length(a);
    }
    of_theme(case.theme, a.notes)?;
    if call == Call::Quick {
        of_length(a)?;
        of_sets(case.sets, a.sets)?;
        of_table(a.table)?;
    }
    of_page(a)
}
