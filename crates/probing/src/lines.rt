// What is written of explanations: those that are to be said, and one that differs with its case.

use crate::calls::{Told, Tracks};
use grounds::answers::{Answer, Screened, Why};
use reporting::heads::case_name;
use reporting::pieces::{numbers, refusals_due};
use second::asks::{Ask, Case};
use second::away::Away;
use std::io;

// Why: the refusal's number and place, or the note that fails, before the reason.
fn why_told(rt: &impl Print, why: Result<Why, Away>) -> io::Result<()> {
    match why {
        Err(away) => {
            let number = away.number;
            let place = away.place;
            print!(rt; " number {number} at {place} refused")
        }
        Ok(why) => {
            if let Some(note) = why.note() {
                print!(rt; " note {note}")?;
            }
            print!(rt; " {why}")
        }
    }
}

// What the sets make of the column, and the interval by which they dismiss it.
fn verdict_told(rt: &impl Print, screened: Screened) -> io::Result<()> {
    print!(rt; ", sets: {screened}")?;
    if let Screened::Dismissed { interval, size } = screened {
        print!(rt; " by interval {interval} of size {size}")?;
    }
    print!(rt; "\n")
}

// An explanation, with so many tracks.
pub fn answer_told(
    rt: &impl Print,
    tracks: &Tracks,
    many: usize,
    answer: Answer,
) -> io::Result<()> {
    why_told(rt, answer.why)?;
    numbers(rt, tracks, many)?;
    verdict_told(rt, answer.screened)
}

// What stands before the explanation of a case: all that is lent, and the pair.
pub fn case_head(rt: &impl Print, case: Case<'_>, a: Ask) -> io::Result<()> {
    let pair = a.pair();
    print!(rt; "case:")?;
    case_name(rt, case, a)?;
    print!(rt; " sets")?;
    numbers(rt, case.sets, a.sets)?;
    print!(rt; " pair {pair}:")
}

// What stands before that of a call with two faults, no lower one where there is one alone.
pub fn due_head(rt: &impl Print, low: Option<usize>, high: usize) -> io::Result<()> {
    print!(rt; "due:")?;
    refusals_due(rt, low, high)
}

// An explanation that differs: its case, the library's answer with all of its tracks, and the answer that is due.
pub fn differing(
    rt: &impl Print,
    case: Case<'_>,
    a: Ask,
    told: Told,
    due: Answer,
) -> io::Result<()> {
    print!(rt; "\nDIFFERS, ")?;
    case_head(rt, case, a)?;
    answer_told(rt, &told.tracks, 64, told.answer)?;
    print!(rt; "due:")?;
    answer_told(rt, &told.tracks, 0, due)
}
