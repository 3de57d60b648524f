// The sets of a score in which one column was changed, brought up to date without a fresh preparation.
//
// `nearby` has the columns of a score, and finds the next with a pitch on either side of one; `changes` rewrites the sets that
// rest on a column.

#![tactic(auto)]

pub mod changes;
mod nearby;

pub use changes::update;
