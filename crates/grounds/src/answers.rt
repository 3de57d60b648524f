// An explanation as plain numbers, the tracks aside.

ghost use Rattle.std.specs.Prelude.{◌≡◌};
ghost use Rattle.grounds.specs.Notes.{note_of};

use second::away::Away;
use std::fmt;

// Why a pair is listed or not, with the note that fails where the reason names one; the first that holds is given.
#[derive(Clone, Copy, PartialEq, Eq)]
pub enum Why {
    Listed,
    NoShift,
    NoColumn,
    TooFew,
    Empty,
    Outside(usize),
    Absent(usize),
}

impl Why {
    // The note that fails, where the reason names one.
    pub fn note(self) -> Option<usize>
        ensures { result ≡ note_of self }
    {
        match self {
            Why::Outside(note) | Why::Absent(note) => Some(note),
            _ => None,
        }
    }
}

impl fmt::Display for Why {
    fn fmt<W: fmt::Write>(&self, f: &mut fmt::Formatter<W>) -> fmt::Result {
        f.write_str(match self {
            Why::Listed => "listed",
            Why::NoShift => "no-shift",
            Why::NoColumn => "column-0",
            Why::TooFew => "too-few",
            Why::Empty => "empty",
            Why::Outside(_) => "outside",
            Why::Absent(_) => "absent",
        })
    }
}

// What the sets make of a column, with the interval of the theme by which they dismiss it, its number and its size.
#[derive(Clone, Copy, PartialEq, Eq)]
pub enum Screened {
    Unasked,
    Kept,
    Dismissed { interval: usize, size: u8 },
}

impl fmt::Display for Screened {
    fn fmt<W: fmt::Write>(&self, f: &mut fmt::Formatter<W>) -> fmt::Result {
        f.write_str(match self {
            Screened::Unasked => "unasked",
            Screened::Kept => "kept",
            Screened::Dismissed { .. } => "dismissed",
        })
    }
}

// An answer: the reason, or what is turned away, and what the sets make of the column.
#[derive(Clone, Copy, PartialEq, Eq)]
pub struct Answer {
    pub why: Result<Why, Away>,
    pub screened: Screened,
}
