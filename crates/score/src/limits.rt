// The limits of a score, and the numbers that its cells and its sets are made of.

// The most tracks of a score.
pub const MOST_TRACKS: usize = 16;

// The most columns of a score.
pub const MOST_COLUMNS: usize = 2048;

// The most cells of a score.
pub const MOST_CELLS: usize = MOST_COLUMNS * MOST_TRACKS;

// The highest pitch.
pub const HIGHEST_PITCH: u8 = 127;

// The cell that is a rest.
pub const REST: u8 = 255;

// The highest interval set: all twelve bits.
pub const HIGHEST_SET: u16 = 4095;

// How many interval sets there are, and so how many words a theme table has: one for each.
pub const TABLE_WORDS: usize = 4096;
