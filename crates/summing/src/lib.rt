// The summary of interval sets: which intervals there are in any of them, as one set. A theme with an interval that it lacks has
// no pair by those sets, so a search box asks it first.

#![tactic(auto)]

pub mod summary;

pub use summary::{Summary, summary_of};
