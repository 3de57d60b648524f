// The question whether a theme occurs at all: its answer, and what is turned away.

use crate::asks::{Ask, Call, Case, first_of};
use crate::away::{Away, of_length, of_score, of_sets, of_table, of_theme, row_where};
use crate::finder::{bit, interval, next_pair};
use crate::summaries::summary;
use crate::totals::less_one;

// Whether the list by the lent sets has a pair: it is tried from its beginning on.
pub fn occurs(case: Case<'_>, a: Ask) -> bool {
    next_pair(case, a, Call::Quick, first_of(a.way))
        .pair
        .is_some()
}

// Whether one of the theme's m - 1 intervals is none of those that the summary has; then it occurs nowhere.
pub fn lacks(theme: &[u8], m: usize, summary: u16) -> bool {
    theme
        .iter()
        .zip(theme.iter().skip(1))
        .take(less_one(m))
        .any(|(&x, &y)| bit(usize::from(summary), interval(x, y)))
}

// What a question is to be turned away with: 1 to 8, and then 12, for a number that is lent as the summary.
pub fn question_refusal(case: Case<'_>, a: Ask, lent: u16) -> Result<(), Away> {
    of_score(case.cells, a.cells, a.h)?;
    of_theme(case.theme, a.notes)?;
    of_length(a)?;
    of_sets(case.sets, a.sets)?;
    of_table(a.table)?;
    row_where(12, summary(case.sets, a.sets) != lent)
}
