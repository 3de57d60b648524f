// Routes of the cases that are written out; of every pattern of tracks; of thick scores, at the pairs of their lists, and of some
// at every column and shift; of broad ones, about the pair that was put into them; and of some jobs of the other trials, at the
// pairs of their lists.

use cases::arranging::{arrange, arrange_theme};
use cases::families::{job, number_of_jobs};
use jobs::buffers::Buffers;
use jobs::changes::at;
use jobs::job::Job;
use probes::tried::{
    FEW_SHIFTS, SHIFTS, all_pairs, each_column, each_shift, few_column, few_pairs, few_shift,
};
use second::asks::{Ask, Call, Case, Pair, columns_of, first_of};
use second::finder::next_pair;
use second::totals::{more, raised};
use std::io;
use straying::strays::{Counts, stray};
use straying::told::stray_head;
use wandering::broad::{arrange_broad, broad_ask, broad_rounds};
use wandering::patterns::{SHAPES, arrange_pattern, pattern_ask, patterns_of};
use wandering::rooms::{lending, places_for};
use wandering::shown::{SHOWN, arrange_shown, shown_ask};
use wandering::thick::{arrange_thick, thick_ask, thick_rounds};

// So many pairs of a list are routed; one of so many thick scores at every column and shift; and one of so many jobs.
const LISTED: usize = 12;

const WHOLE: usize = 23;

const STEP: usize = 11;

pub fn stray_shown(rt: &impl Print, buffers: &mut Buffers, counts: &mut Counts) -> io::Result<()> {
    for k in 0..SHOWN {
        let a = shown_ask(k);
        arrange_shown(&mut buffers.cells, &mut buffers.theme, k);
        stray_head(rt, buffers.case(), a)?;
        stray(rt, buffers.case(), counts, a, true)?;
    }
    Ok(())
}

fn stray_shape(
    rt: &impl Print,
    buffers: &mut Buffers,
    counts: &mut Counts,
    shape: usize,
) -> io::Result<()> {
    for bits in 0..patterns_of(shape) {
        let a = pattern_ask(shape, bits);
        arrange_pattern(&mut buffers.cells, &mut buffers.theme, a, bits);
        stray(rt, buffers.case(), counts, a, false)?;
    }
    Ok(())
}

pub fn stray_patterns(
    rt: &impl Print,
    buffers: &mut Buffers,
    counts: &mut Counts,
) -> io::Result<()> {
    for shape in 0..SHAPES {
        stray_shape(rt, buffers, counts, shape)?;
    }
    Ok(())
}

// With places by turns.
fn stray_quiet(
    rt: &impl Print,
    case: Case<'_>,
    counts: &mut Counts,
    a: Ask,
    turn: usize,
) -> io::Result<()> {
    let lent = lending(a, places_for(a.notes, turn));
    stray(rt, case, counts, lent, false)
}

// At every column and shift, with places by turns from a number on.
fn stray_each(
    rt: &impl Print,
    case: Case<'_>,
    counts: &mut Counts,
    a: Ask,
    first: usize,
) -> io::Result<()> {
    let n = columns_of(a.cells, a.h);
    for i in 0..all_pairs(n) {
        let b = at(a, each_column(n, i / SHIFTS), each_shift(i % SHIFTS));
        stray_quiet(rt, case, counts, b, more(first, i))?;
    }
    Ok(())
}

// About a pair, with places by turns from a number on.
fn stray_few(
    rt: &impl Print,
    case: Case<'_>,
    counts: &mut Counts,
    a: Ask,
    first: usize,
) -> io::Result<()> {
    let n = columns_of(a.cells, a.h);
    for i in 0..few_pairs() {
        let column = few_column(usize::from(a.column), n, i / FEW_SHIFTS);
        let b = at(a, column, few_shift(a.way, a.shift, i % FEW_SHIFTS));
        stray_quiet(rt, case, counts, b, more(first, i))?;
    }
    Ok(())
}

pub fn stray_broad(rt: &impl Print, buffers: &mut Buffers, counts: &mut Counts) -> io::Result<()> {
    for round in 0..broad_rounds() {
        let a = broad_ask(round);
        arrange_broad(&mut buffers.cells, &mut buffers.theme, a, round);
        stray(rt, buffers.case(), counts, a, false)?;
        stray_few(rt, buffers.case(), counts, a, round)?;
    }
    Ok(())
}

// The first pairs of a list, with places by turns from a number on.
fn stray_list(
    rt: &impl Print,
    case: Case<'_>,
    counts: &mut Counts,
    a: Ask,
    first: usize,
) -> io::Result<()> {
    let mut next = first_of(a.way);
    for i in 0..LISTED {
        let Some(pair) = next_pair(case, a, Call::Plain, next).pair else {
            return Ok(());
        };
        stray_quiet(rt, case, counts, a.at(pair), more(first, i))?;
        next = Pair {
            column: pair.column,
            shift: raised(pair.shift),
        };
    }
    Ok(())
}

// The pairs of the list, and in one round of so many every column and shift.
fn stray_round(
    rt: &impl Print,
    buffers: &mut Buffers,
    counts: &mut Counts,
    round: usize,
) -> io::Result<()> {
    let a = thick_ask(round);
    arrange_thick(&mut buffers.cells, &mut buffers.theme, a, round);
    stray_list(rt, buffers.case(), counts, a, round)?;
    if round.is_multiple_of(WHOLE) {
        stray_each(rt, buffers.case(), counts, a, round)?;
    }
    Ok(())
}

pub fn stray_thick(rt: &impl Print, buffers: &mut Buffers, counts: &mut Counts) -> io::Result<()> {
    for round in 0..thick_rounds() {
        stray_round(rt, buffers, counts, round)?;
    }
    Ok(())
}

// The job of number k: the first pairs of its list, and at its bookmark.
fn stray_job(
    rt: &impl Print,
    buffers: &mut Buffers,
    counts: &mut Counts,
    k: usize,
    j: Job,
) -> io::Result<()> {
    let a = j.a;
    arrange(&mut buffers.cells, &mut buffers.sets, j);
    arrange_theme(&mut buffers.cells, &mut buffers.theme, j);
    stray_list(rt, buffers.case(), counts, a, k)?;
    stray_quiet(rt, buffers.case(), counts, a, k)
}

pub fn stray_jobs(rt: &impl Print, buffers: &mut Buffers, counts: &mut Counts) -> io::Result<()> {
    for k in (0..number_of_jobs()).step_by(STEP) {
        if let Some(j) = job(k) {
            stray_job(rt, buffers, counts, k, j)?;
        }
    }
    Ok(())
}
