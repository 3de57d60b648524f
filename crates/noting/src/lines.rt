// What is written of questions and updates: those that are to be said, and one that differs with its case.

use crate::answers::{Judged, Said, occurs_in, summary_in};
use jobs::changes::{Change, What, placed};
use jobs::job::Head;
use judging::answers::Denied;
use judging::compare::Fault;
use mending::refused::{Asked, Twisted, number_at};
use reporting::heads::case_name;
use reporting::lines::{denied_told, outcome_told};
use reporting::pieces::{line, numbers, refusals_due};
use second::asks::{Ask, Case};
use second::ways::Way;
use std::io;

// A changed score, and its sets before and after the update.
#[derive(Clone, Copy)]
pub struct Mended<'a> {
    pub cells: &'a [u8],
    pub old: &'a [u16],
    pub sets: &'a [u16],
    pub column: u16,
}

// An answer, whole: the refusal and its place, or whether the theme occurs, and the summary.
fn whole_answer(rt: &impl Print, said: Result<Said, Denied>) -> io::Result<()> {
    let answer = answer_name(occurs_in(said));
    let summary = summary_in(said);
    denied_told(rt, said.err())?;
    print!(rt; " {answer} {summary}\n")
}

fn answer_name(yes: bool) -> &'static str {
    if yes { "somewhere" } else { "nowhere" }
}

// A question or a preparation that differs, with what is lent and the library's answer.
pub fn differing_question(
    rt: &impl Print,
    case: Case<'_>,
    a: Ask,
    lent: u16,
    j: Judged,
    fault: Fault,
) -> io::Result<()> {
    let table = a.table;
    print!(rt; "\nDIFFERS in {fault}:")?;
    case_name(rt, case, a)?;
    print!(rt; " sets")?;
    numbers(rt, case.sets, a.sets)?;
    print!(rt; " summary {lent} table {table}")?;
    whole_answer(rt, j.said)
}

// An update: the changed score, and the sets before and after.
fn edit_name(rt: &impl Print, m: Mended<'_>, a: Ask) -> io::Result<()> {
    let column = m.column;
    print!(rt; " cells")?;
    numbers(rt, m.cells, a.cells)?;
    print!(rt; " changed column {column} sets")?;
    numbers(rt, m.old, a.sets)?;
    print!(rt; " become")?;
    numbers(rt, m.sets, a.sets)
}

// An update that differs, with the sets before and after it.
pub fn differing_update(
    rt: &impl Print,
    m: Mended<'_>,
    a: Ask,
    j: Judged,
    fault: Fault,
) -> io::Result<()> {
    let h = a.h;
    print!(rt; "\nDIFFERS in {fault}: tracks {h}")?;
    edit_name(rt, m, a)?;
    whole_answer(rt, j.said)
}

// A worked case and the answer of its question.
pub fn case_answered(
    rt: &impl Print,
    case: Case<'_>,
    a: Ask,
    lent: u16,
    said: Result<Said, Denied>,
) -> io::Result<()> {
    let answer = answer_name(occurs_in(said));
    print!(rt; "case:")?;
    case_name(rt, case, a)?;
    print!(rt; " sets")?;
    numbers(rt, case.sets, a.sets)?;
    print!(rt; " summary {lent}: {answer}\n")
}

// A worked edit: the changed score, the sets before and after, and their summary.
pub fn edit_answered(
    rt: &impl Print,
    m: Mended<'_>,
    a: Ask,
    said: Result<Said, Denied>,
) -> io::Result<()> {
    let summary = summary_in(said);
    print!(rt; "edit:")?;
    edit_name(rt, m, a)?;
    print!(rt; " summary {summary}\n")
}

// A twist: what is changed, the number that it gets, and its place where it has one of several. Of a summary it is the number
// that is lent.
fn twist_name(rt: &impl Print, lent: u16, c: Change) -> io::Result<()> {
    let what = c.what;
    let value = if what == What::Summary { lent } else { c.value };
    let place = c.place;
    print!(rt; " {what} {value}")?;
    if placed(what, 1) {
        print!(rt; " at {place}")?;
    }
    Ok(())
}

// What stands before a call on twists, with the summary that is lent.
pub fn head(rt: &impl Print, lent: u16, t: Twisted) -> io::Result<()> {
    let a = t.a;
    let way = a.way;
    match t.head {
        Head::End(c) => {
            print!(rt; "end: {way}")?;
            twist_name(rt, lent, c)?;
            print!(rt; ":")
        }
        Head::Due(due) => {
            print!(rt; "due: {way}")?;
            refusals_due(rt, due.low.map(number_at), number_at(due.high))
        }
        _ => Ok(()),
    }
}

// What a call on twists answered, where it is to be said. In exact a line holds the answers of a question and an update, in
// octave that of a question.
pub fn answered(rt: &impl Print, denied: Option<Denied>, t: Twisted) -> io::Result<()> {
    if !t.loud {
        return Ok(());
    }
    let a = t.a;
    let call = match t.asked {
        Asked::Question => "question",
        Asked::Update => "update",
    };
    print!(rt; " {call}")?;
    outcome_told(rt, denied)?;
    if last_in(a.way, t.asked) {
        line(rt)?;
    }
    Ok(())
}

fn last_in(way: Way, asked: Asked) -> bool {
    match asked {
        Asked::Update => true,
        Asked::Question => way == Way::Octave,
    }
}
