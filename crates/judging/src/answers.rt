// The library's answers as plain numbers, and its preparation, on the part of the lent buffers that is asked for.

ghost use Rattle.std.specs.Prelude.{◌≡◌, ◌≤◌, ◌↔◌, IfErr, IfOk, IsNone, IsOk, length, take};
ghost use Rattle.score.specs.Refusals.{number_of};

use preparing::prepare;
use score::Refusal;
use second::asks::{Ask, Pair};
use second::away::Away;

// A page: how many pairs were written, where the list goes on, whether it is over, and the looks.
#[derive(Clone, Copy)]
pub struct Page {
    pub written: usize,
    pub next: Pair,
    pub finished: bool,
    pub looks: usize,
}

// A page on which there is nothing.
pub const NO_PAGE: Page = Page {
    written: 0,
    next: Pair {
        column: 0,
        shift: 0,
    },
    finished: false,
    looks: 0,
};

// Why there is no answer: the buffers are too short for what is asked, so that no call was made; or it was turned away.
#[derive(Clone, Copy, PartialEq, Eq)]
pub enum Denied {
    Unasked,
    Away(Away),
}

impl Denied {
    // The refusal's number, 99 where no call was made.
    pub fn number(self) -> u8
        ensures unasked { self ≡ Denied.Unasked → result ≡ 99 }
        ensures away { (w : _) → self ≡ Denied.Away w → result ≡ w.number }
    {
        match self {
            Denied::Unasked => 99,
            Denied::Away(away) => away.number,
        }
    }

    pub fn place(self) -> usize
        ensures unasked { self ≡ Denied.Unasked → result ≡ 0 }
        ensures away { (w : _) → self ≡ Denied.Away w → result ≡ w.place }
    {
        match self {
            Denied::Unasked => 0,
            Denied::Away(away) => away.place,
        }
    }
}

// Its number among the refusals that are due.
pub fn number_in(denied: Option<Denied>) -> Option<usize>
    ensures { IsNone result ↔ IsNone denied }
{
    denied.map(|denied| usize::from(denied.number()))
}

// A refusal of the library.
pub fn away_in(r: Refusal) -> Away
    ensures number { result.number ≡ number_of r.rule }
    ensures place { result.place ≡ r.place }
{
    Away {
        number: r.rule.number(),
        place: r.place,
    }
}

impl From<Refusal> for Denied {
    ghost use Rattle.std.specs.Prelude.{◌≡◌};
    ghost use Rattle.score.specs.Refusals.{number_of};
    ghost use Rattle.judging.specs.declared.answers.Denied.TheVariants.{Away};

    ghost from_gives = { λ r denied. denied ≡ Away (record { number = number_of r.rule; place = r.place }) };

    fn from(r: Refusal) -> Denied {
        Denied::Away(away_in(r))
    }
}

// The first so many items of a buffer, or all of a shorter one.
pub fn up_to<T>(s: &[T], many: usize) -> &[T]
    ensures { result.now ≡ take many s.now }
{
    s.get(..many).unwrap_or(s)
}

// The first so many items of a buffer, where it has as many.
pub fn first<T>(s: &[T], many: usize) -> Result<&[T], Denied>
    ensures ok { IsOk result ↔ (many ≤ length s.now) }
    ensures front { IfOk result (λ front. front.now ≡ take many s.now) }
    ensures err { IfErr result (λ denied. denied ≡ Denied.Unasked) }
{
    s.get(..many).ok_or(Denied::Unasked)
}

pub fn first_mut<T>(s: &mut [T], many: usize) -> Result<&mut [T], Denied>
    ensures ok { IsOk result ↔ (many ≤ length s.old) }
    ensures front { IfOk result (λ front. front.now ≡ take many s.old) }
    ensures err { IfErr result (λ denied. denied ≡ Denied.Unasked) }
{
    match s.get_mut(..many) {
        Some(first) => Ok(first),
        None => Err(Denied::Unasked),
    }
}

// The summary of the sets, or the refusal.
pub fn ask_prepare(cells: &[u8], sets: &mut [u16], a: Ask) -> Result<u16, Denied> {
    let cells = first(cells, a.cells)?;
    let sets = first_mut(sets, a.sets)?;
    let summary = prepare(cells, a.h, sets)?;
    Ok(summary.0)
}
