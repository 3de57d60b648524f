// The room that telling takes.

// Room for every text, in bytes: 32,752 lines of 14 bytes, and one of 18.
pub const ROOM: usize = 458546;

// How many pairs are searched for before they are written out.
pub const PAGE_PAIRS: usize = 256;
