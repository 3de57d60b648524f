// A call of the library beside the second finder: what is lent is marked, the call is made, and what it did is compared.

ghost use Rattle.std.specs.Prelude.{◌≡◌};

use crate::calls::{ask_plain, ask_quick};
use jobs::buffers::{Buffers, Rooms};
use judging::answers::{Denied, Page, ask_prepare};
use judging::compare::{
    Fault, Left, Made, Seen, both_right, plain_right, prepared_right, quick_right,
};
use judging::marks::put_marks;
use second::asks::{Ask, Call, Case};
use second::totals::more;

// The buffers as a call left them.
pub fn left_in(rooms: &Rooms) -> Left<'_>
    ensures table { result.table.now ≡ rooms.now.table }
    ensures columns { result.columns.now ≡ rooms.now.columns }
    ensures shifts { result.shifts.now ≡ rooms.now.shifts }
{
    Left {
        table: &rooms.table,
        columns: &rooms.columns,
        shifts: &rooms.shifts,
    }
}

fn mark_page(rooms: &mut Rooms, a: Ask) {
    put_marks(&mut rooms.columns, 0, more(a.columns, 1));
    put_marks(&mut rooms.shifts, 0, more(a.shifts, 1));
}

// What was seen of a page.
fn page_seen(call: Call, got: Result<Page, Denied>, verdict: Result<(), Fault>) -> Seen {
    Seen {
        call,
        got: got.map(|page| Made::Page(page)),
        verdict,
    }
}

// A plain page and what differs of it.
fn plain(case: Case<'_>, rooms: &mut Rooms, a: Ask) -> (Result<Page, Denied>, Result<(), Fault>) {
    mark_page(rooms, a);
    let got = ask_plain(case, rooms, a);
    let verdict = plain_right(case, left_in(rooms), a, Call::Plain, got);
    (got, verdict)
}

// A quick one. Deep: the whole table is marked before the call, and looked at afterwards.
fn quick(
    case: Case<'_>,
    rooms: &mut Rooms,
    a: Ask,
    deep: bool,
) -> (Result<Page, Denied>, Result<(), Fault>) {
    mark_page(rooms, a);
    let from = if deep { 0 } else { a.table };
    put_marks(&mut rooms.table, from, more(a.table, 1));
    let got = ask_quick(case, rooms, a);
    let verdict = quick_right(case, left_in(rooms), a, deep, got);
    (got, verdict)
}

pub fn turn_plain(case: Case<'_>, rooms: &mut Rooms, a: Ask) -> Seen {
    let (got, verdict) = plain(case, rooms, a);
    page_seen(Call::Plain, got, verdict)
}

pub fn turn_quick(case: Case<'_>, rooms: &mut Rooms, a: Ask, deep: bool) -> Seen {
    let (got, verdict) = quick(case, rooms, a, deep);
    page_seen(Call::Quick, got, verdict)
}

// A plain page and a quick one by the score's own sets, each beside the second finder's and beside one another.
pub fn turn_both(case: Case<'_>, rooms: &mut Rooms, a: Ask, deep: bool) -> Seen {
    let (p, plain_verdict) = plain(case, rooms, a);
    if plain_verdict.is_err() {
        return page_seen(Call::Plain, p, plain_verdict);
    }
    let (q, quick_verdict) = quick(case, rooms, a, deep);
    if quick_verdict.is_err() {
        return page_seen(Call::Quick, q, quick_verdict);
    }
    page_seen(Call::Both, q, both_right(p, q))
}

// The score of a case, prepared into its sets. That of `changing` judges the summary too, and its callers note what
// updates and questions do.
pub fn turn_prepare(buffers: &mut Buffers, a: Ask) -> Seen {
    put_marks(&mut buffers.sets, 0, more(a.sets, 1));
    let prepared = ask_prepare(&buffers.cells, &mut buffers.sets, a);
    let verdict = prepared_right(&buffers.cells, &buffers.sets, a, prepared.err());
    Seen {
        call: Call::Prepare,
        got: prepared.map(|_| Made::Sets),
        verdict,
    }
}
