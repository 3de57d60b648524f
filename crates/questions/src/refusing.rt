// What is turned away of questions and updates: each call on twists to an accepted one, with what is lent compared afterwards.

use crate::lent::Mending;
use changing::turns::{turn_question, turn_update};
use jobs::buffers::{Buffers, Sets, Table};
use judging::answers::{Denied, number_in};
use judging::compare::Fault;
use mending::refused::{Asked, Twisted, due_first, number_of_refused, refused_call};
use mending::twisting::{arrange_twisted, column_in, summary_in};
use noting::answers::{Judged, Said};
use noting::lines::{Mended, answered, head};
use noting::notes::{Tally, noted_question, noted_update};
use second::asks::Case;
use std::io;

// What was seen, with another number than the one that is due as a fault.
fn due_judged(t: Twisted, j: Judged) -> Judged {
    let said = j.said;
    let Some(due) = t.due else {
        return j;
    };
    if due_first(t.asked, due) == number_in(said.err()) {
        return j;
    }
    let verdict = Err(Fault::Refusal);
    Judged { said, verdict }
}

fn question(
    rt: &impl Print,
    case: Case<'_>,
    table: &mut Table,
    tally: &mut Tally,
    t: Twisted,
) -> io::Result<Result<Said, Denied>> {
    let a = t.a;
    let lent = summary_in(case.sets, t);
    let judged = due_judged(t, turn_question(case, table, a, true, lent));
    noted_question(rt, case, tally, a, lent, judged)?;
    Ok(judged.said)
}

fn update(
    rt: &impl Print,
    cells: &[u8],
    old: &mut Sets,
    sets: &mut Sets,
    tally: &mut Tally,
    t: Twisted,
) -> io::Result<Result<Said, Denied>> {
    let a = t.a;
    let column = column_in(t);
    let judged = due_judged(t, turn_update(cells, old, sets, a, column));
    let mended = Mended {
        cells,
        old,
        sets,
        column,
    };
    noted_update(rt, mended, tally, a, judged)?;
    Ok(judged.said)
}

// A call on the lent buffers, between what is written before it and its answer.
fn attempt(
    rt: &impl Print,
    buffers: &mut Buffers,
    mending: &mut Mending,
    tally: &mut Tally,
    t: Twisted,
) -> io::Result<()> {
    arrange_twisted(&mut buffers.cells, &mut buffers.theme, &mut buffers.sets, t);
    head(rt, summary_in(&buffers.sets, t), t)?;
    let said = match t.asked {
        Asked::Question => question(rt, buffers.case(), &mut mending.table, tally, t)?,
        Asked::Update => update(
            rt,
            &buffers.cells,
            &mut mending.old,
            &mut buffers.sets,
            tally,
            t,
        )?,
    };
    answered(rt, said.err(), t)
}

pub fn refuse_all(
    rt: &impl Print,
    buffers: &mut Buffers,
    mending: &mut Mending,
    tally: &mut Tally,
) -> io::Result<()> {
    for k in 0..number_of_refused() {
        if let Some(t) = refused_call(k) {
            attempt(rt, buffers, mending, tally, t)?;
        }
    }
    Ok(())
}
