// Whole lists: the pages from the first bookmark to the last, each beside the second finder's.

use jobs::buffers::Rooms;
use jobs::job::Job;
use judging::answers::{Denied, NO_PAGE, Page};
use judging::compare::{Fault, Made, Seen, demand, page_in};
use reporting::lines::{Tally, differing, page_told};
use second::asks::{Ask, Call, Case, Pair, first_of};
use second::finder::most_looks;
use second::totals::{add, more, product};
use second::ways::Way;
use std::io;
use turning::turns::{left_in, turn_both, turn_plain, turn_quick};

// No list has so many pages.
const MOST: usize = 70000;

// How many differing cases are written out.
const SHOWN: u64 = 8;

// Counts what was seen, and writes it out where it differs. Whether it does not.
pub fn noted(
    rt: &impl Print,
    case: Case<'_>,
    tally: &mut Tally,
    a: Ask,
    seen: Seen,
) -> io::Result<bool> {
    if let Err(fault) = seen.verdict {
        add(&mut tally.differed, 1);
        if tally.differed <= SHOWN {
            differing(rt, case, a, seen, fault)?;
        }
        return Ok(false);
    }
    match seen.got {
        Err(_) => add(&mut tally.refusals, 1),
        Ok(Made::Sets) => add(&mut tally.scores, 1),
        Ok(Made::Page(page)) => page_noted(tally, a.way, seen.call, page.written),
    }
    Ok(true)
}

// Counts a page and its pairs, for each call that turned it; those in written once more by themselves.
fn page_noted(tally: &mut Tally, way: Way, call: Call, written: usize) {
    let calls: usize = if call == Call::Both { 2 } else { 1 };
    let pages = calls as u64;
    let pairs = product(written, calls) as u64;
    add(&mut tally.pages, pages);
    add(&mut tally.pairs, pairs);
    if way == Way::Written {
        add(&mut tally.written_pages, pages);
        add(&mut tally.written_pairs, pairs);
    }
}

// How many pages so many pairs need.
fn pages_for(pairs: usize, r: usize) -> usize {
    if r == 0 {
        return 0;
    }
    more(pairs / r, 1)
}

// A list that is being read: where it goes on, where it is not over, and what there was so far.
#[derive(Clone, Copy)]
struct Reading {
    next: Option<Pair>,
    pages: usize,
    pairs: usize,
    looks: usize,
}

// The same after one more page.
fn turned_on(r: Reading, page: Page) -> Reading {
    Reading {
        next: if page.finished { None } else { Some(page.next) },
        pages: more(r.pages, 1),
        pairs: more(r.pairs, page.written),
        looks: more(r.looks, page.looks),
    }
}

// A list: where it is over, floor(L / r) + 1 pages, and no more looks than the bound.
fn list_right(cells: &[u8], a: Ask, r: Reading) -> Result<(), Fault> {
    if r.next.is_some() {
        return Ok(());
    }
    demand(r.pages == pages_for(r.pairs, a.columns), Fault::Pages)?;
    demand(r.looks <= most_looks(cells, a), Fault::Looks)
}

// A page by itself, and the list where it is over. A list is asked for where nothing is turned away.
fn judged(
    cells: &[u8],
    a: Ask,
    r: Reading,
    got: Result<Made, Denied>,
    page: Result<(), Fault>,
) -> Result<(), Fault> {
    page?;
    demand(got.is_ok(), Fault::Refusal)?;
    list_right(cells, a, r)
}

// One page of a job; of both calls, where the sets are the score's own.
pub fn turned(case: Case<'_>, rooms: &mut Rooms, j: Job) -> Seen {
    match j.call {
        Call::Plain => turn_plain(case, rooms, j.a),
        Call::Quick => turn_quick(case, rooms, j.a, j.deep),
        _ => turn_both(case, rooms, j.a, j.deep),
    }
}

// One page more, from where the list goes on. Where it differs the list is over.
fn read_on(
    rt: &impl Print,
    case: Case<'_>,
    rooms: &mut Rooms,
    tally: &mut Tally,
    j: Job,
    r: Reading,
    next: Pair,
) -> io::Result<Reading> {
    let a = j.a.at(next);
    let mut on = j;
    on.a = a;
    let seen = turned(case, rooms, on);
    let page = page_in(seen.got);
    if j.loud {
        page_told(rt, left_in(rooms), a, j.call, page)?;
    }
    let mut read = turned_on(r, page);
    let whole = Seen {
        call: seen.call,
        got: seen.got,
        verdict: judged(case.cells, a, read, seen.got, seen.verdict),
    };
    if !noted(rt, case, tally, a, whole)? {
        read.next = None;
    }
    Ok(read)
}

// All pages of a job from the first bookmark on; where it is loud, each is written out.
pub fn list(
    rt: &impl Print,
    case: Case<'_>,
    rooms: &mut Rooms,
    tally: &mut Tally,
    j: Job,
) -> io::Result<()> {
    let a = j.a;
    let mut r = Reading {
        next: Some(first_of(a.way)),
        pages: 0,
        pairs: 0,
        looks: 0,
    };
    for _ in 0..MOST {
        let Some(next) = r.next else {
            return Ok(());
        };
        r = read_on(rt, case, rooms, tally, j, r, next)?;
    }
    noted(rt, case, tally, a, endless(j.call))?;
    Ok(())
}

// A list without an end.
fn endless(call: Call) -> Seen {
    Seen {
        call,
        got: Ok(Made::Page(NO_PAGE)),
        verdict: Err(Fault::Pages),
    }
}
