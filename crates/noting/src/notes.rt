// Counts what was tried, and writes out one that differs.

use crate::answers::{Judged, occurs_in, summary_in};
use crate::lines::{Mended, differing_question, differing_update};
use second::asks::{Ask, Case};
use second::questions::lacks;
use second::totals::add;
use std::io;

// How much was tried, and how many differed.
#[derive(Clone, Copy, Default)]
pub struct Tally {
    pub prepared: u64,
    pub somewhere: u64,
    pub nowhere: u64,
    pub lacking: u64,
    pub updates: u64,
    pub fresh: u64,
    pub refusals: u64,
    pub differed: u64,
}

// How many differing cases are written out.
const SHOWN: u64 = 8;

// Counts a case that differs. Whether it is to be written out.
fn shown(tally: &mut Tally) -> bool {
    add(&mut tally.differed, 1);
    tally.differed <= SHOWN
}

// A preparation: counts it, or writes out what differs.
pub fn noted_preparation(
    rt: &impl Print,
    case: Case<'_>,
    tally: &mut Tally,
    a: Ask,
    j: Judged,
) -> io::Result<()> {
    match j.verdict {
        Err(fault) => {
            if shown(tally) {
                differing_question(rt, case, a, summary_in(j.said), j, fault)?;
            }
        }
        Ok(()) if j.said.is_ok() => add(&mut tally.prepared, 1),
        Ok(()) => add(&mut tally.refusals, 1),
    }
    Ok(())
}

// A question, with the summary that was lent. Those that are accepted and that the summary alone settles are counted by
// themselves too.
pub fn noted_question(
    rt: &impl Print,
    case: Case<'_>,
    tally: &mut Tally,
    a: Ask,
    lent: u16,
    j: Judged,
) -> io::Result<()> {
    match j.verdict {
        Err(fault) => {
            if shown(tally) {
                differing_question(rt, case, a, lent, j, fault)?;
            }
        }
        Ok(()) if j.said.is_err() => add(&mut tally.refusals, 1),
        Ok(()) if occurs_in(j.said) => add(&mut tally.somewhere, 1),
        Ok(()) => add(&mut tally.nowhere, 1),
    }
    if j.said.is_ok() && lacks(case.theme, a.notes, lent) {
        add(&mut tally.lacking, 1);
    }
    Ok(())
}

// An update.
pub fn noted_update(
    rt: &impl Print,
    m: Mended<'_>,
    tally: &mut Tally,
    a: Ask,
    j: Judged,
) -> io::Result<()> {
    match j.verdict {
        Err(fault) => {
            if shown(tally) {
                differing_update(rt, m, a, j, fault)?;
            }
        }
        Ok(()) if j.said.is_ok() => add(&mut tally.updates, 1),
        Ok(()) => add(&mut tally.refusals, 1),
    }
    Ok(())
}
