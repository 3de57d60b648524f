// What is written of answers: those that are to be said, one that differs with its case, and how much was tried.

use crate::heads::case_name;
use crate::pieces::{line, numbers, pairs};
use jobs::job::Job;
use jobs::refused::last_call;
use judging::answers::{Denied, Page};
use judging::compare::{Fault, Left, Seen, page_in};
use second::asks::{Ask, Call, Case};
use std::io;

// How much was tried, and how many differed.
#[derive(Clone, Copy, Default)]
pub struct Tally {
    pub scores: u64,
    pub themes: u64,
    pub pages: u64,
    pub pairs: u64,
    pub refusals: u64,
    pub differed: u64,
    pub written_pages: u64,
    pub written_pairs: u64,
}

// Where a page begins, and its room.
fn opening(rt: &impl Print, a: Ask, call: Call) -> io::Result<()> {
    let first = a.pair();
    let room = a.columns;
    print!(rt; " {call} from {first} room {room}:")
}

// A page's answer.
pub fn page_told(
    rt: &impl Print,
    left: Left<'_>,
    a: Ask,
    call: Call,
    page: Page,
) -> io::Result<()> {
    let end = if page.finished { "finished" } else { "more" };
    let next = page.next;
    let looks = page.looks;
    print!(rt; " ")?;
    opening(rt, a, call)?;
    pairs(rt, left.columns, left.shifts, page.written)?;
    print!(rt; " {end}, next {next} looks {looks}\n")
}

// A case that differs, with the sizes of what is lent and the library's answer.
pub fn differing(
    rt: &impl Print,
    case: Case<'_>,
    a: Ask,
    seen: Seen,
    fault: Fault,
) -> io::Result<()> {
    let page = page_in(seen.got);
    print!(rt; "\nDIFFERS in {fault}:")?;
    case_name(rt, case, a)?;
    print!(rt; " sets")?;
    numbers(rt, case.sets, a.sets)?;
    print!(rt; " lent")?;
    numbers(rt, &[a.sets, a.table, a.columns, a.shifts], 4)?;
    opening(rt, a, seen.call)?;
    denied_told(rt, seen.got.err())?;
    let written = page.written;
    let next = page.next;
    print!(rt; " {written} {next}\n")
}

// A refusal's number and place, 0 and 0 where there is none.
pub fn denied_told(rt: &impl Print, denied: Option<Denied>) -> io::Result<()> {
    let number = denied.map_or(0, |denied| denied.number());
    let place = denied.map_or(0, |denied| denied.place());
    print!(rt; " answered {number} {place}")
}

// What a call answered: its refusal and the place, or that it was accepted.
pub fn outcome_told(rt: &impl Print, denied: Option<Denied>) -> io::Result<()> {
    match denied {
        None => print!(rt; " accepted"),
        Some(denied) => {
            let number = denied.number();
            let place = denied.place();
            print!(rt; " {number} at {place}")
        }
    }
}

// The same of a job's call, where it is to be said.
pub fn answered(rt: &impl Print, call: Call, denied: Option<Denied>, loud: bool) -> io::Result<()> {
    if !loud {
        return Ok(());
    }
    print!(rt; " {call}")?;
    outcome_told(rt, denied)
}

// The end of the line that holds the answers of the calls of a way.
pub fn tail(rt: &impl Print, j: Job) -> io::Result<()> {
    let a = j.a;
    if !j.whole && j.loud && last_call(a.way, j.call) {
        line(rt)?;
    }
    Ok(())
}

// How much was tried, and how many differed.
pub fn totals(rt: &impl Print, tally: Tally) -> io::Result<()> {
    let Tally {
        scores,
        themes,
        pages,
        pairs,
        refusals,
        differed,
        written_pages,
        written_pairs,
    } = tally;
    print!(rt;
        "tried: scores {scores} themes {themes} pages {pages} pairs {pairs} refusals {refusals}\n"
    )?;
    print!(rt; "of these in written: pages {written_pages} pairs {written_pairs}\n")?;
    print!(rt; "differed {differed}\n")
}
