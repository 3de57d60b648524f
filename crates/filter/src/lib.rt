// The filter: which columns a theme's intervals may begin at, by the sets alone.
//
// `limits` names the width. The `table` has a word for each set, and the `register` takes a word for each column: a bit of
// it is zero where the last columns have the theme's first intervals, one each.

#![tactic(auto)]

pub mod limits;
pub mod register;
pub mod table;

pub use limits::WORD_BITS;
pub use register::{marks, step};
pub use table::fill_table;
