// The shifts of each way, and the codes. `specs/Way` has the same numbers.

// The lowest and the highest shift of exact, and the one above it, which a bookmark may have.
pub const EXACT_LOWEST: i16 = -127;

pub const EXACT_HIGHEST: i16 = 127;

pub const EXACT_PAST: i16 = 128;

// How many shifts exact has.
pub const EXACT_SHIFTS: u16 = 255;

// The same of octave.
pub const OCTAVE_LOWEST: i16 = 0;

pub const OCTAVE_HIGHEST: i16 = 11;

pub const OCTAVE_PAST: i16 = 12;

pub const OCTAVE_SHIFTS: u16 = 12;

// The one shift of written, and the one above it.
pub const WRITTEN_SHIFT: i16 = 0;

pub const WRITTEN_PAST: i16 = 1;

// The highest code that a bookmark has.
pub const HIGHEST_CODE: u16 = 255;
