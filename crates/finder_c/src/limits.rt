// How a way and an answer are told in numbers.

// The numbers of ways: those of the plain page and the route go up to written, those of the quick page, the question and the
// explanation to octave.
pub const OCTAVE: u8 = 1;

pub const WRITTEN: u8 = 2;

// How many numbers the answer of a page has.
pub const ANSWER_NUMBERS: usize = 5;

// How many numbers the answer of a preparation, an update, the question or a route has.
pub const ONE_NUMBER: usize = 1;

// How many numbers an explanation has: five in front, and a track for each of 64 notes.
pub const EXPLAIN_NUMBERS: usize = 69;

// What a refusal's place is multiplied by, to stand above its number.
pub const PLACE_WEIGHT: usize = 256;

// The result where there was no call.
pub const NOT_CALLED: i64 = 255;
