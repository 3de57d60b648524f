// Ways of matching, their shifts, and where a search goes on.
//
// A `way` is how notes are matched; `limits` names its shifts, and `codes` are the shifts counted from its lowest. A found
// place is a pair, and a `bookmark` the first pair to consider.

#![tactic(auto)]

pub mod bookmark;
mod codes;
pub mod limits;
pub mod way;

pub use bookmark::{Bookmark, Pair};
pub use codes::{code_of, no_shift, out_as, shift_of, span_of};
pub use limits::HIGHEST_CODE;
pub use way::{AnyWay, Way};
