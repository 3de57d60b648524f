// Why is a pair not listed? The first reason that holds, or the track of each note where it is listed; and beside it whether the
// lent sets dismiss its column.
//
// `answer` is what is answered, and `explainer` has the call. `fits` checks the column by itself, `notes` goes through the notes
// of a theme that has room there, and `intervals` through its intervals.

#![tactic(auto)]

pub mod answer;
pub mod explainer;
mod fits;
mod intervals;
mod notes;

pub use answer::{Explanation, Lacking, Reason, Sifted};
pub use explainer::explain;
