// What is asked of the library, as plain numbers, what is lent beside, and which of its calls is meant.

ghost use Rattle.std.specs.Prelude.{◌≡◌, ◌%◌};
ghost use Rattle.second.specs.Shifts.{lowest_of};
ghost use Rattle.second.specs.Columns.{columns_in};

use crate::ways::{Way, lowest};
use std::fmt;

// What is asked: how much of each lent buffer is handed over, and the numbers beside.
#[derive(Clone, Copy)]
pub struct Ask {
    pub h: usize,
    pub cells: usize,
    pub notes: usize,
    pub sets: usize,
    pub table: usize,
    pub columns: usize,
    pub shifts: usize,
    pub way: Way,
    pub column: u16,
    pub shift: i16,
}

impl Ask {
    // The pair that is asked for, or at which a page is to begin.
    pub fn pair(self) -> Pair
        ensures { result ≡ record { column = self.column; shift = self.shift } }
    {
        Pair {
            column: usize::from(self.column),
            shift: self.shift,
        }
    }

    // The same asked of another pair. Its column is cut to 16 bits.
    pub fn at(self, pair: Pair) -> Ask
        ensures { result ≡ record self { column = pair.column % 65536; shift = pair.shift } }
    {
        let mut b = self;
        b.column = (pair.column % 65536) as u16;
        b.shift = pair.shift;
        b
    }
}

// The buffers that are lent to be read: a score's cells, a theme and sets. How much of each is handed over is asked beside.
#[derive(Clone, Copy)]
pub struct Case<'a> {
    pub cells: &'a [u8],
    pub theme: &'a [u8],
    pub sets: &'a [u16],
}

// A column, from 1, and a shift.
#[derive(Clone, Copy, PartialEq, Eq)]
pub struct Pair {
    pub column: usize,
    pub shift: i16,
}

// As it is written: (column, shift).
impl fmt::Display for Pair {
    fn fmt<W: fmt::Write>(&self, f: &mut fmt::Formatter<W>) -> fmt::Result {
        let column = self.column;
        let shift = self.shift;
        write!(f, "({column}, {shift})")
    }
}

// The first pair of a way, with which a list begins.
pub fn first_of(way: Way) -> Pair
    ensures { result ≡ record { column = 1; shift = lowest_of way } }
{
    Pair {
        column: 1,
        shift: lowest(way),
    }
}

// The calls: preparation, plain and quick search, and these two beside one another.
#[derive(Clone, Copy, PartialEq, Eq)]
pub enum Call {
    Prepare,
    Plain,
    Quick,
    Both,
}

impl fmt::Display for Call {
    fn fmt<W: fmt::Write>(&self, f: &mut fmt::Formatter<W>) -> fmt::Result {
        f.write_str(match self {
            Call::Prepare => "prepare",
            Call::Plain => "plain",
            Call::Quick => "quick",
            Call::Both => "both",
        })
    }
}

// How many columns so many cells make.
pub fn columns_of(cells: usize, h: usize) -> usize
    ensures { result ≡ columns_in cells h }
{
    if h == 0 {
        return 0;
    }
    cells / h
}
