// The shifts of a way, which may be below zero, and their codes, which count from the lowest. No other module of a search that
// moves the theme knows a shift's sign.

ghost use Rattle.std.specs.Prelude.{◌≡◌, cond, pos, ◌+ℤ◌};
ghost use Rattle.std.specs.Int.Signed.{lt_z};
ghost use Rattle.ways.specs.Way.{lowest, span, range_as};
ghost use Rattle.ways.specs.Codes.{outside, no_shift, out_of_range, out_as, code_given, shift_given};

use crate::limits::{
    EXACT_HIGHEST, EXACT_LOWEST, EXACT_PAST, EXACT_SHIFTS, HIGHEST_CODE, OCTAVE_HIGHEST,
    OCTAVE_LOWEST, OCTAVE_PAST, OCTAVE_SHIFTS, WRITTEN_PAST, WRITTEN_SHIFT,
};
use crate::way::{AnyWay, Way};

// How many shifts the way has.
pub fn span_of(way: Way) -> u16
    ensures { result ≡ span way }
{
    match way {
        Way::Exact => EXACT_SHIFTS,
        Way::Octave => OCTAVE_SHIFTS,
    }
}

// The lowest shift of the way.
pub fn lowest_of(way: Way) -> i16
    ensures { result ≡ lowest way }
{
    match way {
        Way::Exact => EXACT_LOWEST,
        Way::Octave => OCTAVE_LOWEST,
    }
}

// The lowest shift of any way.
pub fn lowest_as(way: AnyWay) -> i16
    ensures { result ≡ (range_as way).lowest }
{
    match way {
        AnyWay::Moved(w) => lowest_of(w),
        AnyWay::Written => WRITTEN_SHIFT,
    }
}

// A shift raised by one. The highest number of 16 bits stays.
pub fn raised(shift: i16) -> i16
    ensures { result ≡ cond (lt_z shift (pos 32767)) (shift +ℤ pos 1) (pos 32767) }
{
    if shift < 32767 { shift + 1 } else { 32767 }
}

// Whether the shift lies outside low to high.
fn outside(shift: i16, low: i16, high: i16) -> bool
    ensures { result ≡ outside shift low high }
{
    if shift < low {
        return true;
    }
    high < shift
}

// Whether the shift is none of the way's. That which a bookmark may have besides is none.
pub fn no_shift(way: Way, shift: i16) -> bool
    ensures { result ≡ no_shift way shift }
{
    match way {
        Way::Exact => outside(shift, EXACT_LOWEST, EXACT_HIGHEST),
        Way::Octave => outside(shift, OCTAVE_LOWEST, OCTAVE_HIGHEST),
    }
}

// Whether a bookmark may not have this shift: one below the way's lowest, or more than one above its highest.
pub fn out_of_range(way: Way, shift: i16) -> bool
    ensures { result ≡ out_of_range way shift }
{
    match way {
        Way::Exact => outside(shift, EXACT_LOWEST, EXACT_PAST),
        Way::Octave => outside(shift, OCTAVE_LOWEST, OCTAVE_PAST),
    }
}

// The same of any way.
pub fn out_as(way: AnyWay, shift: i16) -> bool
    ensures { result ≡ out_as way shift }
{
    match way {
        AnyWay::Moved(w) => out_of_range(w, shift),
        AnyWay::Written => outside(shift, WRITTEN_SHIFT, WRITTEN_PAST),
    }
}

// The code of a shift. One that no bookmark may have gives 0.
pub fn code_of(way: Way, shift: i16) -> u16
    ensures { result ≡ code_given way shift }
{
    if out_of_range(way, shift) {
        return 0;
    }
    (shift - lowest_of(way)) as u16
}

// The shift that a code stands for. A code above 255, which no bookmark has, gives the way's lowest.
pub fn shift_of(way: Way, code: u16) -> i16
    ensures { result ≡ shift_given way code }
{
    let lowest = lowest_of(way);
    if HIGHEST_CODE < code {
        return lowest;
    }
    code as i16 + lowest
}
