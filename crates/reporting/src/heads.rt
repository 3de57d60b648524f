// What stands before a job's answers: the case, the change to an accepted call, or the refusals that are due.

use crate::pieces::{line, numbers, refusals_due, value_name};
use jobs::changes::{Change, placed};
use jobs::job::{Head, Job};
use second::asks::{Ask, Case};
use second::ways::Way;
use std::io;

// A case, whole: the score, the theme and the way.
pub fn case_name(rt: &impl Print, case: Case<'_>, a: Ask) -> io::Result<()> {
    let h = a.h;
    let way = a.way;
    print!(rt; " tracks {h} cells")?;
    numbers(rt, case.cells, a.cells)?;
    print!(rt; " theme")?;
    numbers(rt, case.theme, a.notes)?;
    print!(rt; " {way}")
}

// A worked case and its sets, a line each.
fn worked_case(rt: &impl Print, case: Case<'_>, a: Ask) -> io::Result<()> {
    print!(rt; "case:")?;
    case_name(rt, case, a)?;
    print!(rt; "\n  sets")?;
    numbers(rt, case.sets, a.sets)?;
    line(rt)
}

// A change to an accepted call.
fn change_name(rt: &impl Print, way: Way, c: Change) -> io::Result<()> {
    let what = c.what;
    let place = c.place;
    print!(rt; "end: {way} {what}")?;
    value_name(rt, what, c.value)?;
    if placed(what, 1) {
        print!(rt; " at {place}")?;
    }
    print!(rt; ":")
}

// What stands before a job's answers.
pub fn head(rt: &impl Print, case: Case<'_>, j: Job) -> io::Result<()> {
    let a = j.a;
    let way = a.way;
    match j.head {
        Head::Quiet => Ok(()),
        Head::Case => worked_case(rt, case, a),
        Head::End(c) => change_name(rt, way, c),
        Head::Due(due) => {
            print!(rt; "due: {way}")?;
            refusals_due(rt, due.low, due.high)
        }
    }
}
