// Explanations of the worked cases, which are written out; of crowded scores; and of some jobs of the trials. Small scores are
// explained at every column and shift, larger ones about the first pair of their list.

use cases::arranging::{arrange, arrange_theme};
use cases::families::{job, number_of_jobs};
use jobs::buffers::Buffers;
use jobs::changes::at;
use jobs::job::Job;
use mending::arranging::lend_sets;
use mending::edit::lent_of;
use probes::crowded::{arrange_crowded, crowded_ask, number_of_rounds};
use probes::tried::{
    FEW_SHIFTS, SHIFTS, all_pairs, each_column, each_shift, few_column, few_pairs, few_shift,
};
use probes::worked::{arrange_worked, number_of_cases, worked_ask};
use probing::counts::Counts;
use probing::lines::case_head;
use probing::turns::turn;
use second::asks::{Ask, Call, Case, columns_of, first_of};
use second::finder::{list_end, next_pair};
use second::ways::counted;
use std::io;

// One of so many jobs is explained.
const STEP: usize = 211;

// The columns of a small score, at most, and the cells of one that is so large that all of its jobs are explained.
const SMALL: usize = 6;

const LARGE: usize = 10000;

pub fn try_worked(rt: &impl Print, buffers: &mut Buffers, counts: &mut Counts) -> io::Result<()> {
    for k in 0..number_of_cases() {
        let a = worked_ask(k);
        arrange_worked(
            &mut buffers.cells,
            &mut buffers.theme,
            &mut buffers.sets,
            a,
            k,
        );
        case_head(rt, buffers.case(), a)?;
        turn(rt, buffers.case(), counts, a, true)?;
    }
    Ok(())
}

// At every column and shift.
fn try_each(rt: &impl Print, case: Case<'_>, counts: &mut Counts, a: Ask) -> io::Result<()> {
    let n = columns_of(a.cells, a.h);
    for i in 0..all_pairs(n) {
        let tried = at(a, each_column(n, i / SHIFTS), each_shift(i % SHIFTS));
        turn(rt, case, counts, tried, false)?;
    }
    Ok(())
}

// About the first pair of the list, or the end of one that has none.
fn try_few(rt: &impl Print, case: Case<'_>, counts: &mut Counts, a: Ask) -> io::Result<()> {
    let n = columns_of(a.cells, a.h);
    let pair = next_pair(case, a, Call::Plain, first_of(a.way))
        .pair
        .unwrap_or(list_end(a));
    for i in 0..few_pairs() {
        let column = few_column(pair.column, n, i / FEW_SHIFTS);
        let tried = at(a, column, few_shift(a.way, pair.shift, i % FEW_SHIFTS));
        turn(rt, case, counts, tried, false)?;
    }
    Ok(())
}

pub fn try_crowded(rt: &impl Print, buffers: &mut Buffers, counts: &mut Counts) -> io::Result<()> {
    for round in 0..number_of_rounds() {
        let a = crowded_ask(round);
        arrange_crowded(
            &mut buffers.cells,
            &mut buffers.theme,
            &mut buffers.sets,
            a,
            round,
        );
        try_each(rt, buffers.case(), counts, a)?;
    }
    Ok(())
}

// Whether the job of number k is explained.
fn taken(k: usize, a: Ask) -> bool {
    counted(a.way) && (LARGE < a.cells || k.is_multiple_of(STEP))
}

// The job of number k, by its sets or others in their place.
fn try_job(
    rt: &impl Print,
    buffers: &mut Buffers,
    counts: &mut Counts,
    k: usize,
    j: Job,
) -> io::Result<()> {
    let a = j.a;
    if !taken(k, a) {
        return Ok(());
    }
    arrange(&mut buffers.cells, &mut buffers.sets, j);
    arrange_theme(&mut buffers.cells, &mut buffers.theme, j);
    lend_sets(&mut buffers.sets, a.sets, lent_of(k % 4));
    if columns_of(a.cells, a.h) <= SMALL {
        try_each(rt, buffers.case(), counts, a)
    } else {
        try_few(rt, buffers.case(), counts, a)
    }
}

pub fn try_jobs(rt: &impl Print, buffers: &mut Buffers, counts: &mut Counts) -> io::Result<()> {
    for k in 0..number_of_jobs() {
        if let Some(j) = job(k) {
            try_job(rt, buffers, counts, k, j)?;
        }
    }
    Ok(())
}
