// What is written of routes: those that are to be said, and one that differs with its case.

use crate::beside::written_by;
use crate::calling::Stray;
use crate::marked::Places;
use detours::detour::Detour;
use reporting::heads::case_name;
use reporting::pieces::{line, numbers, refusals_due};
use second::asks::{Ask, Case};
use std::io;

// The changes, or the refusal's number and place.
fn outcome(rt: &impl Print, answer: Stray) -> io::Result<()> {
    match answer {
        Ok(changes) => print!(rt; " changes {changes}"),
        Err(away) => {
            let number = away.number;
            let place = away.place;
            print!(rt; " refused {number} at {place}")
        }
    }
}

// The places from one to another.
fn kept(rt: &impl Print, places: &Places, from: usize, to: usize) -> io::Result<()> {
    if let Some(places) = places.get(from..to) {
        if !places.is_empty() {
            print!(rt; ", kept")?;
        }
        numbers(rt, places, places.len())?;
    }
    Ok(())
}

// An answer with all places that were lent: the route, and behind it what they kept.
pub fn stray_told(rt: &impl Print, places: &Places, a: Ask, answer: Stray) -> io::Result<()> {
    let many = written_by(a, answer);
    outcome(rt, answer)?;
    if answer.is_ok() {
        print!(rt; ", route")?;
        numbers(rt, places, many)?;
    }
    kept(rt, places, many, a.columns)?;
    line(rt)
}

// What stands before the route of a case: all that is lent, and the pair.
pub fn stray_head(rt: &impl Print, case: Case<'_>, a: Ask) -> io::Result<()> {
    let pair = a.pair();
    let places = a.columns;
    print!(rt; "case:")?;
    case_name(rt, case, a)?;
    print!(rt; " pair {pair} places {places}:")
}

// What stands before that of a call with two faults, no first one where there is one alone.
pub fn barred_head(rt: &impl Print, low: Option<usize>, high: usize) -> io::Result<()> {
    print!(rt; "due:")?;
    refusals_due(rt, low, high)
}

// The route that is due.
fn due_told(rt: &impl Print, a: Ask, due: Detour) -> io::Result<()> {
    print!(rt; "due:")?;
    match due {
        Ok(best) => {
            outcome(rt, Ok(best.changes))?;
            numbers(rt, &best.path, a.notes)?;
        }
        Err(away) => outcome(rt, Err(away))?,
    }
    line(rt)
}

// A route that differs: its case, the library's answer, and the one that is due.
pub fn astray(
    rt: &impl Print,
    case: Case<'_>,
    places: &Places,
    a: Ask,
    answer: Stray,
    due: Detour,
) -> io::Result<()> {
    print!(rt; "\nDIFFERS, ")?;
    stray_head(rt, case, a)?;
    stray_told(rt, places, a, answer)?;
    due_told(rt, a, due)
}
