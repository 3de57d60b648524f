// The second explainer's answer. The pair is the column and the shift of what is asked.

use crate::answers::{Answer, Screened, Why};
use crate::columns::against_column;
use crate::intervals::by_intervals;
use crate::notes::against_notes;
use second::asks::{Ask, Case};
use second::away::{Away, of_length, of_score, of_sets, of_theme};
use second::ways::has_shift;

// What an explanation is to be turned away with: 1 to 7.
fn refusal(case: Case<'_>, a: Ask) -> Result<(), Away> {
    of_score(case.cells, a.cells, a.h)?;
    of_theme(case.theme, a.notes)?;
    of_length(a)?;
    of_sets(case.sets, a.sets)
}

// Why the pair is listed or not, by what speaks against the column: the shift comes first, then the column, then the notes.
fn reason_for(case: Case<'_>, a: Ask, column: Option<Why>) -> Why {
    if !has_shift(a.way, a.shift) {
        return Why::NoShift;
    }
    match column {
        Some(why) => why,
        None => against_notes(case.cells, case.theme, a).unwrap_or(Why::Listed),
    }
}

// What the lent sets make of the pair's column. The shift plays no part.
fn screen(case: Case<'_>, a: Ask, column: Option<Why>) -> Screened {
    if column.is_some() {
        Screened::Unasked
    } else {
        by_intervals(case, a)
    }
}

pub fn second_explanation(case: Case<'_>, a: Ask) -> Answer {
    match refusal(case, a) {
        Err(away) => Answer {
            why: Err(away),
            screened: Screened::Unasked,
        },
        Ok(()) => {
            let column = against_column(case.cells, a);
            Answer {
                why: Ok(reason_for(case, a, column)),
                screened: screen(case, a, column),
            }
        }
    }
}
