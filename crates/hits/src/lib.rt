// Hits written into the two lent buffers.
//
// `writing` writes what fits: all hits of a column at once, or one.

#![tactic(auto)]

pub mod writing;

pub use writing::{keep, put_hits};
