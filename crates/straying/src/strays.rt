// A route asked for, compared and counted.

use crate::beside::as_due;
use crate::calling::{Stray, ask_route};
use crate::marked::{Places, marked_places};
use crate::told::{astray, stray_told};
use detours::detour::{Detour, Method, few_routes, second_route};
use second::asks::{Ask, Case};
use second::totals::add;
use second::ways::Way;
use std::io;

// From so many changes on, routes are counted together.
pub const MORE_CHANGES: usize = 8;

#[derive(Clone, Copy, Default)]
pub struct Counts {
    // how many were compared, how many had a route and how many of these a change, and how many had places to spare
    pub compared: u64,
    pub routed: u64,
    pub changed: u64,
    pub spare: u64,
    // how many were compared with every route there is, and how many of these had more than one best
    pub tried: u64,
    pub alike: u64,
    pub differed: u64,
    // the routes by their ways, and by their changes, of which the last place has all that have as many or more
    pub exact: u64,
    pub octave: u64,
    pub written: u64,
    // the routes by their changes, and the refusals by their numbers, as they are written: arrays, since a number says which
    // is counted
    pub by_changes: [u64; 9],
    pub by_number: [u64; 20],
}

// How many differing cases are written out.
const WRITTEN_OUT: u64 = 8;

fn add_at(counts: &mut [u64], place: usize) {
    if let Some(count) = counts.get_mut(place) {
        add(count, 1);
    }
}

fn count_route(counts: &mut Counts, a: Ask, changes: usize) {
    add(&mut counts.routed, 1);
    add_at(&mut counts.by_changes, changes.min(MORE_CHANGES));
    match a.way {
        Way::Exact => add(&mut counts.exact, 1),
        Way::Octave => add(&mut counts.octave, 1),
        Way::Written => add(&mut counts.written, 1),
    }
    add(&mut counts.changed, u64::from(0 < changes));
    add(&mut counts.spare, u64::from(a.notes < a.columns));
}

// Counts a route that is right, or a refusal.
fn tallied(counts: &mut Counts, a: Ask, answer: Stray) {
    match answer {
        Ok(changes) => count_route(counts, a, changes),
        Err(away) => add_at(&mut counts.by_number, usize::from(away.number)),
    }
}

// Counts one that differs, and writes out the first ones.
fn amiss(
    rt: &impl Print,
    case: Case<'_>,
    places: &Places,
    counts: &mut Counts,
    a: Ask,
    answer: Stray,
    due: Detour,
) -> io::Result<()> {
    add(&mut counts.differed, 1);
    if counts.differed <= WRITTEN_OUT {
        astray(rt, case, places, a, answer, due)?;
    }
    Ok(())
}

// Holds a route against every route there is, where they are few.
fn weigh_every(
    rt: &impl Print,
    case: Case<'_>,
    places: &Places,
    counts: &mut Counts,
    a: Ask,
    answer: Stray,
) -> io::Result<()> {
    let due = second_route(case.cells, case.theme, a, Method::Every);
    add(&mut counts.tried, 1);
    if let Ok(best) = due {
        add(&mut counts.alike, u64::from(1 < best.alike));
    }
    if !as_due(places, a, answer, due) {
        amiss(rt, case, places, counts, a, answer, due)?;
    }
    Ok(())
}

// Holds an answer against the second router's; a route where every one can be tried beside it, against all of them too.
fn weigh(
    rt: &impl Print,
    case: Case<'_>,
    places: &Places,
    counts: &mut Counts,
    a: Ask,
    answer: Stray,
) -> io::Result<()> {
    add(&mut counts.compared, 1);
    let due = second_route(case.cells, case.theme, a, Method::Ahead);
    if !as_due(places, a, answer, due) {
        return amiss(rt, case, places, counts, a, answer, due);
    }
    tallied(counts, a, answer);
    if answer.is_ok() && few_routes(a) {
        weigh_every(rt, case, places, counts, a, answer)?;
    }
    Ok(())
}

// Asks for a route and notes how it compares; a loud one is written.
pub fn stray(
    rt: &impl Print,
    case: Case<'_>,
    counts: &mut Counts,
    a: Ask,
    loud: bool,
) -> io::Result<()> {
    let mut places = marked_places();
    let answer = ask_route(case.cells, case.theme, &mut places, a);
    weigh(rt, case, &places, counts, a, answer)?;
    if loud {
        stray_told(rt, &places, a, answer)?;
    }
    Ok(())
}
