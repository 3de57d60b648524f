// What a job is: a trial by its numbers, which say what score and theme are made, what is asked of them, and which call is tried.

ghost use Rattle.std.specs.Prelude.{◌≡◌, MatchOption};

use crate::changes::Change;
use second::asks::{Ask, Call};

// The calls that are tried by turns: a job's place in its turn is a count, and stays a number.
pub const CALLS: [Call; 4] = [Call::Prepare, Call::Plain, Call::Quick, Call::Both];

// Where a score and a theme come from.
#[derive(Clone, Copy)]
pub enum Source {
    Worked,
    World,
    Random,
    Edge,
    Gaps,
    Beats,
    Spread,
    Sparse,
}

// Two refusals of which the one that comes first is due, by their places in the order; no lower one, or twice the same, where one
// stands alone.
#[derive(Clone, Copy)]
pub struct Due {
    pub low: Option<usize>,
    pub high: usize,
}

impl Due {
    // Two by their numbers from 1, of which the first may be 0 for none; no two where they stand in the other order.
    pub fn of(low: usize, high: usize) -> Option<Due>
        ensures { MatchOption result (Unit {0}) (λ due. due.high ≡ high) }
    {
        if high == 0 || high < low {
            return None;
        }
        Some(Due {
            low: (0 < low).then_some(low),
            high,
        })
    }
}

// What is written before a job: nothing, the case, the end of a range, or the refusals that are due.
#[derive(Clone, Copy)]
pub enum Head {
    Quiet,
    Case,
    End(Change),
    Due(Due),
}

#[derive(Clone, Copy)]
pub struct Job {
    // the score whose sets are lent, the score and the theme, by their numbers
    pub source: Source,
    pub sets_of: usize,
    pub score: usize,
    pub theme: usize,
    // what is asked, after two changes
    pub a: Ask,
    pub c: Option<Change>,
    pub d: Option<Change>,
    // the call, and whether it is tried page after page
    pub call: Call,
    pub whole: bool,
    // whether the whole table is looked at
    pub deep: bool,
    pub loud: bool,
    pub head: Head,
    // the refusals that are due, where that is said
    pub due: Option<Due>,
}

impl Job {
    // A single call on a score with its own sets, with no changes, of which nothing is written.
    pub fn quiet(source: Source, score: usize, theme: usize, a: Ask, call: Call) -> Job
        ensures { result.sets_of ≡ result.score }
    {
        Job {
            source,
            sets_of: score,
            score,
            theme,
            a,
            c: None,
            d: None,
            call,
            whole: false,
            deep: false,
            loud: false,
            head: Head::Quiet,
            due: None,
        }
    }
}
