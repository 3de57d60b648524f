// The library's explanation as plain numbers, on the part of the lent buffers that is asked for.

use explaining::{Explanation, Reason, Sifted, explain};
use grounds::answers::{Answer, Screened, Why};
use judging::answers::{away_in, up_to};
use score::{Column, Refusal};
use second::asks::{Ask, Case};
use ways::{Pair, Way};

// The places for tracks.
pub type Tracks = [u8; 64];

// An explanation, with its tracks.
#[derive(Clone, Copy)]
pub struct Told {
    pub answer: Answer,
    pub tracks: Tracks,
}

fn why_in(reason: Reason) -> Why {
    match reason {
        Reason::Listed => Why::Listed,
        Reason::NoShift => Why::NoShift,
        Reason::NoColumn => Why::NoColumn,
        Reason::TooFew => Why::TooFew,
        Reason::Empty => Why::Empty,
        Reason::Outside(note) => Why::Outside(usize::from(note)),
        Reason::Absent(note) => Why::Absent(usize::from(note)),
    }
}

fn screened_in(sifted: Sifted) -> Screened {
    match sifted {
        Sifted::Unasked => Screened::Unasked,
        Sifted::Kept => Screened::Kept,
        Sifted::Dismissed(l) => Screened::Dismissed {
            interval: usize::from(l.number),
            size: l.size.0,
        },
    }
}

// Where the call is turned away there are no tracks, and nothing is asked of the sets.
fn plain(answer: Result<Explanation, Refusal>) -> Told {
    match answer {
        Ok(e) => {
            let tracks = e.tracks;
            Told {
                answer: Answer {
                    why: Ok(why_in(e.reason)),
                    screened: screened_in(e.sifted),
                },
                tracks,
            }
        }
        Err(r) => Told {
            answer: Answer {
                why: Err(away_in(r)),
                screened: Screened::Unasked,
            },
            tracks: [0; 64],
        },
    }
}

// Only the two ways that move a theme have explanations; no other is asked for.
fn way_in(way: second::ways::Way) -> Way {
    match way {
        second::ways::Way::Exact => Way::Exact,
        _ => Way::Octave,
    }
}

pub fn ask_explanation(case: Case<'_>, a: Ask) -> Told {
    let pair = Pair {
        column: Column(a.column),
        shift: a.shift,
    };
    plain(explain(
        up_to(case.cells, a.cells),
        a.h,
        up_to(case.theme, a.notes),
        way_in(a.way),
        pair,
        up_to(case.sets, a.sets),
    ))
}
