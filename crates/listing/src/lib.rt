// The lister's text: from the bytes of an input to the bytes of its whole output.
//
// `limits` names the room for an input; `output` is the call: it has the crate `reading` read, and the crate `telling` write.

#![tactic(auto)]

pub mod limits;
pub mod output;

pub use limits::INPUT_ROOM;
pub use output::{TooShort, list};
pub use telling::ROOM;
