// What a question, an update or a preparation did, beside the second finder: what it answered, what it wrote, and what it left
// untouched.

use judging::answers::Denied;
use judging::compare::{Fault, demand, filled_right, prepared_right, refusal_right};
use noting::lines::Mended;
use second::asks::{Ask, Case};
use second::questions::{lacks, occurs, question_refusal};
use second::summaries::summary;
use second::totals::more;
use second::updates::{update_refusal, update_right};

// The answer of an accepted question: yes where the list by the lent sets has a pair. It is never yes where the theme has an
// interval that no set has.
fn answer_right(case: Case<'_>, a: Ask, lent: u16, yes: bool) -> Result<(), Fault> {
    demand(yes == occurs(case, a), Fault::Answer)?;
    demand(!yes || !lacks(case.theme, a.notes, lent), Fault::Answer)
}

// A question: its answer, and the theme's table.
pub(crate) fn question_right(
    case: Case<'_>,
    table: &[u32],
    a: Ask,
    deep: bool,
    lent: u16,
    said: Result<bool, Denied>,
) -> Result<(), Fault> {
    refusal_right(question_refusal(case, a, lent), said.err())?;
    if let Ok(yes) = said {
        answer_right(case, a, lent, yes)?;
    }
    filled_right(case.theme, table, a, deep, said.is_ok())
}

// Whether sets from one place to another are the same in two buffers.
fn same_sets(s: &[u16], t: &[u16], from: usize, to: usize) -> bool {
    s.get(from..to) == t.get(from..to)
}

// The summary that an accepted call gives, of the sets as they then are.
fn summary_right(sets: &[u16], a: Ask, given: u16) -> Result<(), Fault> {
    demand(summary(sets, a.sets) == given, Fault::Summary)
}

// An update. A refused one leaves the sets as they were, an accepted one those behind them: it rewrites two, and gives the
// summary.
pub(crate) fn update_right_in(
    m: Mended<'_>,
    a: Ask,
    said: Result<u16, Denied>,
) -> Result<(), Fault> {
    refusal_right(update_refusal(m.cells, m.old, a, m.column), said.err())?;
    demand(
        same_sets(m.old, m.sets, a.sets, more(a.sets, 1)),
        Fault::Untouched,
    )?;
    match said {
        Ok(given) => {
            demand(
                update_right(m.cells, m.old, m.sets, a, m.column),
                Fault::Sets,
            )?;
            summary_right(m.sets, a, given)
        }
        Err(_) => demand(same_sets(m.old, m.sets, 0, a.sets), Fault::Untouched),
    }
}

// Updated sets beside fresh ones, with their summaries.
pub(crate) fn fresh_right(
    sets: &[u16],
    fresh: &[u16],
    a: Ask,
    updated: Result<u16, Denied>,
    prepared: Result<u16, Denied>,
) -> Result<(), Fault> {
    demand(
        updated == prepared && same_sets(sets, fresh, 0, a.sets),
        Fault::Fresh,
    )
}

// A preparation: the sets, and the summary.
pub(crate) fn summed_right(
    cells: &[u8],
    sets: &[u16],
    a: Ask,
    said: Result<u16, Denied>,
) -> Result<(), Fault> {
    prepared_right(cells, sets, a, said.err())?;
    match said {
        Ok(given) => summary_right(sets, a, given),
        Err(_) => Ok(()),
    }
}
