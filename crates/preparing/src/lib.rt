// The interval sets that are prepared of a score: `classes` says which tones a column has, `heard` which column with a pitch
// follows, and `sets` prepares, and makes the set of any two columns.

#![tactic(auto)]

mod classes;
mod heard;
pub mod sets;

pub use classes::classes_of;
pub use sets::{prepare, set_between};
