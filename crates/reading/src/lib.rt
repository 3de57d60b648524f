// The lister's input: from its bytes to the notes, the cells and the way of a search, or to the number of its first faulty line.
//
// The crate `words` reads a word or a cell at a place of the input, `lines` a theme line, a chord line and all chord lines.
// `request` is the call.

#![tactic(auto)]

mod lines;
pub mod request;

pub use request::{ReadError, Reading, read};
