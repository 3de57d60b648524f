// The width of the filter.

// How many bits a word of the table and the register have.
pub const WORD_BITS: u32 = 32;
