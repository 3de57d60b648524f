// What a call of the library did, beside the second finder: what it answered, what it wrote, and what it left untouched.

ghost use Rattle.std.specs.Prelude.{◌≡◌, ◌↔◌, ◌⊎◌, IfErr, IsErr, IsFalse, IsNone, IsOk, IsTrue};

use crate::answers::{Denied, NO_PAGE, Page};
use crate::marks::kept;
use second::asks::{Ask, Call, Case, Pair};
use second::away::{Away, refusal};
use second::finder::{list_end, next_pair, sets_right, table_right};
use second::totals::{more, raised};
use std::fmt;

// What differs.
#[derive(Clone, Copy, PartialEq, Eq)]
pub enum Fault {
    Refusal,
    Pair,
    Written,
    Next,
    Finished,
    Looks,
    Untouched,
    Sets,
    Table,
    Pages,
    Beside,
    Answer,
    Summary,
    Fresh,
}

impl fmt::Display for Fault {
    fn fmt<W: fmt::Write>(&self, f: &mut fmt::Formatter<W>) -> fmt::Result {
        f.write_str(match self {
            Fault::Refusal => "refusal",
            Fault::Pair => "pair",
            Fault::Written => "written",
            Fault::Next => "next",
            Fault::Finished => "finished",
            Fault::Looks => "looks",
            Fault::Untouched => "untouched",
            Fault::Sets => "sets",
            Fault::Table => "table",
            Fault::Pages => "pages",
            Fault::Beside => "quick-beside-plain",
            Fault::Answer => "answer",
            Fault::Summary => "summary",
            Fault::Fresh => "beside-a-fresh-preparation",
        })
    }
}

// A fault, unless something is right.
pub fn demand(right: bool, fault: Fault) -> Result<(), Fault>
    ensures ok { IsOk result ↔ IsTrue right }
    ensures err { IfErr result (λ e. e ≡ fault) }
{
    if right { Ok(()) } else { Err(fault) }
}

// What an accepted call made.
#[derive(Clone, Copy)]
pub enum Made {
    Sets,
    Page(Page),
}

// The page that a call made, or one on which there is nothing.
pub fn page_in(got: Result<Made, Denied>) -> Page
    ensures { (page : _) → got ≡ Ok (Made.Page page) → result ≡ page }
{
    match got {
        Ok(Made::Page(page)) => page,
        _ => NO_PAGE,
    }
}

// What was seen of a call: what it made, and what differs.
#[derive(Clone, Copy)]
pub struct Seen {
    pub call: Call,
    pub got: Result<Made, Denied>,
    pub verdict: Result<(), Fault>,
}

// The buffers of a page as a call left them.
#[derive(Clone, Copy)]
pub struct Left<'a> {
    pub table: &'a [u32],
    pub columns: &'a [u16],
    pub shifts: &'a [i16],
}

// An accepted page, beside what it should be.
fn page_right(got: Page, due: Page) -> Result<(), Fault> {
    demand(got.written == due.written, Fault::Written)?;
    demand(got.next == due.next, Fault::Next)?;
    demand(got.finished == due.finished, Fault::Finished)?;
    demand(got.looks == due.looks, Fault::Looks)
}

// An accepted page, pair after pair beside the second finder's.
fn follow(case: Case<'_>, left: Left<'_>, a: Ask, call: Call, got: Page) -> Result<(), Fault> {
    let mut next = a.pair();
    let mut looks: usize = 0;
    let written = left.columns.iter().zip(left.shifts);
    for (k, (&column, &shift)) in written.take(a.columns).enumerate() {
        let found = next_pair(case, a, call, next);
        looks = more(looks, found.looks);
        let Some(pair) = found.pair else {
            let due = Page {
                written: k,
                next: list_end(a),
                finished: true,
                looks,
            };
            return page_right(got, due);
        };
        let column = usize::from(column);
        demand(pair == Pair { column, shift }, Fault::Pair)?;
        next = Pair {
            column,
            shift: raised(shift),
        };
    }
    let due = Page {
        written: a.columns,
        next,
        finished: false,
        looks,
    };
    page_right(got, due)
}

// Whether a call was turned away as it should be, or accepted where it should be.
pub fn refusal_right(due: Result<(), Away>, got: Option<Denied>) -> Result<(), Fault>
    ensures ok { IsOk result → (IsOk due ↔ IsNone got) }
    ensures unasked { got ≡ Some Denied.Unasked → IsErr result }
    ensures err { IfErr result (λ e. e ≡ Fault.Refusal) }
{
    let right = match due {
        Ok(()) => got.is_none(),
        Err(away) => got == Some(Denied::Away(away)),
    };
    demand(right, Fault::Refusal)
}

// A page beside the second finder's. A refused one leaves both buffers as they were, an accepted one what lies behind the pairs.
pub fn plain_right(
    case: Case<'_>,
    left: Left<'_>,
    a: Ask,
    call: Call,
    got: Result<Page, Denied>,
) -> Result<(), Fault>
    ensures { got ≡ Err Denied.Unasked → IsErr result }
{
    refusal_right(refusal(case, a, call), got.err())?;
    let mut written: usize = 0;
    if let Ok(page) = got {
        follow(case, left, a, call, page)?;
        written = page.written;
    }
    demand(
        kept(left.columns, written, more(a.columns, 1))
            && kept(left.shifts, written, more(a.shifts, 1)),
        Fault::Untouched,
    )
}

// The theme's table after a call that fills it: all of it, or some entries; as it was after a refusal, and always behind its end.
pub fn filled_right(
    theme: &[u8],
    table: &[u32],
    a: Ask,
    deep: bool,
    accepted: bool,
) -> Result<(), Fault>
    ensures { IsFalse accepted → IfErr result (λ e. e ≡ Fault.Untouched) }
{
    demand(kept(table, a.table, more(a.table, 1)), Fault::Untouched)?;
    if accepted {
        demand(table_right(theme, a.notes, table, deep), Fault::Table)
    } else {
        demand(!deep || kept(table, 0, a.table), Fault::Untouched)
    }
}

// A quick page: the pairs, and the table.
pub fn quick_right(
    case: Case<'_>,
    left: Left<'_>,
    a: Ask,
    deep: bool,
    got: Result<Page, Denied>,
) -> Result<(), Fault>
    ensures { got ≡ Err Denied.Unasked → IsErr result }
{
    plain_right(case, left, a, Call::Quick, got)?;
    filled_right(case.theme, left.table, a, deep, got.is_ok())
}

// The sets after a preparation: the score's, or as they were after a refusal; as they were behind their end.
pub fn prepared_right(
    cells: &[u8],
    sets: &[u16],
    a: Ask,
    denied: Option<Denied>,
) -> Result<(), Fault>
    ensures { denied ≡ Some Denied.Unasked → IsErr result }
{
    let case = Case {
        cells,
        theme: &[],
        sets,
    };
    refusal_right(refusal(case, a, Call::Prepare), denied)?;
    demand(kept(sets, a.sets, more(a.sets, 1)), Fault::Untouched)?;
    if denied.is_some() {
        demand(kept(sets, 0, a.sets), Fault::Untouched)
    } else {
        demand(sets_right(cells, sets, a), Fault::Sets)
    }
}

// A plain and a quick page from the same bookmark and room, by the score's own sets, beside one another.
pub fn both_right(plain: Result<Page, Denied>, quick: Result<Page, Denied>) -> Result<(), Fault>
    ensures ok { IsOk result → (IsOk plain ↔ IsOk quick) }
    ensures err { IfErr result (λ e. e ≡ Fault.Beside) }
{
    let right = match (plain, quick) {
        (Ok(p), Ok(q)) => {
            p.written == q.written
                && p.next == q.next
                && p.finished == q.finished
                && q.looks <= p.looks
        }
        (Err(_), Err(_)) => true,
        _ => false,
    };
    demand(right, Fault::Beside)
}
