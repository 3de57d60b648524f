// An explanation asked for, compared and counted.

use crate::calls::{Told, ask_explanation};
use crate::compare::tracks_right;
use crate::counts::{Counts, count};
use crate::lines::{answer_told, differing};
use grounds::answers::{Answer, Why};
use grounds::explainer::second_explanation;
use second::asks::{Ask, Case};
use second::totals::add;
use std::io;

// How many differing cases are written out.
const SHOWN: u64 = 8;

// How many places have a track: one for each note of a listed pair, and else none.
fn places_of(a: Ask, answer: Answer) -> usize {
    if answer.why == Ok(Why::Listed) {
        a.notes
    } else {
        0
    }
}

// Counts an explanation, or writes out one that differs.
fn noted(
    rt: &impl Print,
    case: Case<'_>,
    counts: &mut Counts,
    a: Ask,
    told: Told,
) -> io::Result<()> {
    add(&mut counts.compared, 1);
    let due = second_explanation(case, a);
    if told.answer == due && tracks_right(case, &told.tracks, a, places_of(a, due)) {
        count(counts, told);
        return Ok(());
    }
    add(&mut counts.differed, 1);
    if counts.differed <= SHOWN {
        differing(rt, case, a, told, due)?;
    }
    Ok(())
}

// Asks for an explanation and notes how it compares; a loud one is written.
pub fn turn(
    rt: &impl Print,
    case: Case<'_>,
    counts: &mut Counts,
    a: Ask,
    loud: bool,
) -> io::Result<()> {
    let told = ask_explanation(case, a);
    noted(rt, case, counts, a, told)?;
    if loud {
        answer_told(rt, &told.tracks, places_of(a, told.answer), told.answer)?;
    }
    Ok(())
}
