// A call beside the second finder: what is lent is marked, the call is made, and what it did is compared.

use crate::calls::{ask_question, ask_update};
use crate::verdicts::{fresh_right, question_right, summed_right, update_right_in};
use jobs::buffers::{Sets, Table};
use judging::answers::{Denied, ask_prepare};
use judging::compare::Fault;
use judging::marks::put_marks;
use noting::answers::{Judged, Said};
use noting::lines::Mended;
use second::asks::{Ask, Case};
use second::totals::more;

// What was seen of a call that gives a summary.
fn summed(said: Result<u16, Denied>, verdict: Result<(), Fault>) -> Judged {
    Judged {
        said: said.map(|summary| Said::Summary(summary)),
        verdict,
    }
}

// A question with a lent summary. Deep: the whole table is marked before the call, and looked at afterwards.
pub fn turn_question(case: Case<'_>, table: &mut Table, a: Ask, deep: bool, lent: u16) -> Judged {
    let from = if deep { 0 } else { a.table };
    put_marks(table, from, more(a.table, 1));
    let answer = ask_question(case, table, a, lent);
    let verdict = question_right(case, table, a, deep, lent, answer);
    Judged {
        said: answer.map(|yes| Said::Occurs(yes)),
        verdict,
    }
}

// An update after a column was changed, by the sets as they are: what they were stays in `old`.
fn updated(
    cells: &[u8],
    old: &mut Sets,
    sets: &mut Sets,
    a: Ask,
    column: u16,
) -> (Result<u16, Denied>, Result<(), Fault>) {
    *old = *sets;
    let said = ask_update(cells, sets, a, column);
    let mended = Mended {
        cells,
        old,
        sets,
        column,
    };
    (said, update_right_in(mended, a, said))
}

pub fn turn_update(cells: &[u8], old: &mut Sets, sets: &mut Sets, a: Ask, column: u16) -> Judged {
    let (said, verdict) = updated(cells, old, sets, a, column);
    summed(said, verdict)
}

// A preparation. That of `turning` judges the sets alone, as what was seen beside pages.
pub fn turn_prepare(cells: &[u8], sets: &mut Sets, a: Ask) -> Judged {
    put_marks(sets, 0, more(a.sets, 1));
    let said = ask_prepare(cells, sets, a);
    summed(said, summed_right(cells, sets, a, said))
}

// An update of sets that were right, beside a fresh preparation of the changed score too.
pub fn turn_fresh(
    cells: &[u8],
    old: &mut Sets,
    sets: &mut Sets,
    fresh: &mut Sets,
    a: Ask,
    column: u16,
) -> Judged {
    let (said, verdict) = updated(cells, old, sets, a, column);
    if verdict.is_err() {
        return summed(said, verdict);
    }
    let prepared = ask_prepare(cells, fresh, a);
    summed(said, fresh_right(sets, fresh, a, said, prepared))
}
