// A column as a word of bits, and the starts at which it holds a note.
//
// A `word` is 128 bits in two halves of 64. `columns` makes the word of a column, and `moving` moves it by a note, so that its
// bits are the starts at which the column holds that note.

#![tactic(auto)]

pub mod columns;
pub mod moving;
pub mod word;

pub use columns::word_of;
pub use moving::moved;
pub use word::{Word, all_starts, width_of};
