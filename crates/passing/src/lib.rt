// Empty columns passed over: a score without them is a score, along which every search goes.
//
// `empties` says whether there are any, and `taking` takes them out: it keeps the cells of the columns with a pitch, and the
// number that each has in the score. `numbers` goes by those numbers: the sets of the columns that are kept, where a column
// stands among them, and what their numbers are in the score.

#![tactic(auto)]

pub mod empties;
pub mod numbers;
pub mod taking;

pub use empties::{any_empty, is_empty};
pub use numbers::{kept_sets, rank, rename};
pub use taking::take_out;
