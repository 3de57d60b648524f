// The ways of matching: the shifts of each, and when two pitches are the same to it.

ghost use Rattle.std.specs.Prelude.{◌≡◌, ◌↔◌, ◌≤ℤ◌, IsTrue};
ghost use Rattle.second.specs.Shifts.{lowest_of, highest_of, Same};

use crate::totals::twelves;
use std::fmt;

// Exact: a note moved by the shift. Octave: the same with octaves ignored. Written: exact with shift 0 alone.
#[derive(Clone, Copy, PartialEq, Eq)]
pub enum Way {
    Exact,
    Octave,
    Written,
}

impl fmt::Display for Way {
    fn fmt<W: fmt::Write>(&self, f: &mut fmt::Formatter<W>) -> fmt::Result {
        f.write_str(match self {
            Way::Exact => "exact",
            Way::Octave => "octave",
            Way::Written => "written",
        })
    }
}

// How many shifts a way has.
pub fn span(way: Way) -> u8 {
    match way {
        Way::Exact => 255,
        Way::Octave => 12,
        Way::Written => 1,
    }
}

// The lowest of them.
pub fn lowest(way: Way) -> i16
    ensures { result ≡ lowest_of way }
{
    match way {
        Way::Exact => -127,
        Way::Octave | Way::Written => 0,
    }
}

// The shift that stands s above the lowest.
pub fn shift_at(way: Way, s: u8) -> i16 {
    match way {
        Way::Exact => i16::from(s) - 127,
        Way::Octave | Way::Written => i16::from(s),
    }
}

// Whether a shift is one of the way's.
pub fn has_shift(way: Way, c: i16) -> bool
    ensures { IsTrue result ↔ ((lowest_of way ≤ℤ c) × (c ≤ℤ highest_of way)) }
{
    match way {
        Way::Exact => (-127..=127).contains(&c),
        Way::Octave => (0..=11).contains(&c),
        Way::Written => c == 0,
    }
}

// Whether a bookmark may have a shift: one of the way's, or one above the highest.
pub fn marked_by(way: Way, c: i16) -> bool {
    match way {
        Way::Exact => (-127..=128).contains(&c),
        Way::Octave => (0..=12).contains(&c),
        Way::Written => (0..=1).contains(&c),
    }
}

// Whether two pitches that lie z apart are the same.
pub fn same(way: Way, z: i32) -> bool
    ensures { IsTrue result ↔ Same way z }
{
    match way {
        Way::Exact | Way::Written => z == 0,
        Way::Octave => twelves(z),
    }
}

// Whether a way counts looks; written has none. Only a way that counts them has a quick search, which is there to save them.
pub fn counted(way: Way) -> bool {
    match way {
        Way::Exact | Way::Octave => true,
        Way::Written => false,
    }
}
