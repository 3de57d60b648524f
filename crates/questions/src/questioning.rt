// The question, for every job of the trials that lists the pairs of a theme in exact or octave; and preparation with its summary,
// for every score of them.

use crate::lent::Mending;
use cases::arranging::{arrange, arrange_theme};
use cases::families::{job, number_of_jobs};
use changing::turns::{turn_prepare, turn_question};
use jobs::buffers::{Buffers, Table};
use jobs::job::Job;
use noting::lines::case_answered;
use noting::notes::{Tally, noted_preparation, noted_question};
use second::asks::{Ask, Call, Case};
use second::summaries::summary;
use second::ways::{Way, counted};
use std::io;

// Whether a job lists the pairs of a theme, by a quick search too. Of calls by themselves only the quick ones are tried.
fn lists(call: Call, whole: bool) -> bool {
    match call {
        Call::Quick => true,
        Call::Both => whole,
        _ => false,
    }
}

// Whether a job is a question here: it lists pairs, in a way that has questions.
fn asks(call: Call, way: Way, whole: bool) -> bool {
    counted(way) && lists(call, whole)
}

// The question of a job, by the sets that are lent and their summary; a worked case is written out.
fn question(
    rt: &impl Print,
    case: Case<'_>,
    table: &mut Table,
    tally: &mut Tally,
    a: Ask,
    deep: bool,
    worked: bool,
) -> io::Result<()> {
    let lent = summary(case.sets, a.sets);
    let judged = turn_question(case, table, a, deep, lent);
    noted_question(rt, case, tally, a, lent, judged)?;
    if worked {
        case_answered(rt, case, a, lent, judged.said)?;
    }
    Ok(())
}

// A job on the lent buffers: the preparation of its score anew, and its question where it is one.
fn attempt(
    rt: &impl Print,
    buffers: &mut Buffers,
    mending: &mut Mending,
    tally: &mut Tally,
    j: Job,
    asked: bool,
) -> io::Result<()> {
    let a = j.a;
    arrange(&mut buffers.cells, &mut buffers.sets, j);
    arrange_theme(&mut buffers.cells, &mut buffers.theme, j);
    let case = buffers.case();
    let judged = turn_prepare(case.cells, &mut mending.fresh, a);
    let fresh = Case {
        cells: case.cells,
        theme: case.theme,
        sets: &mending.fresh,
    };
    noted_preparation(rt, fresh, tally, a, judged)?;
    if asked {
        let worked = j.loud && j.whole;
        question(rt, case, &mut mending.table, tally, a, j.deep, worked)?;
    }
    Ok(())
}

// A job that is a question or a preparation.
fn ask(
    rt: &impl Print,
    buffers: &mut Buffers,
    mending: &mut Mending,
    tally: &mut Tally,
    j: Job,
) -> io::Result<()> {
    let a = j.a;
    let asked = asks(j.call, a.way, j.whole);
    if asked || j.call == Call::Prepare {
        attempt(rt, buffers, mending, tally, j, asked)?;
    }
    Ok(())
}

pub fn ask_all(
    rt: &impl Print,
    buffers: &mut Buffers,
    mending: &mut Mending,
    tally: &mut Tally,
) -> io::Result<()> {
    for k in 0..number_of_jobs() {
        if let Some(j) = job(k) {
            ask(rt, buffers, mending, tally, j)?;
        }
    }
    Ok(())
}
