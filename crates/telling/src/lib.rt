// A whole search told as text: its hit lines and its end line.
//
// `limits` names the room that is needed, `writing` puts numbers and lines into the output, `pages` searches and writes out each
// page as it comes, and `calls` has the two calls: a search is told, or an input is refused.

#![tactic(auto)]

pub mod calls;
pub mod limits;
mod pages;
mod writing;

pub use calls::{TellError, refuse, tell};
pub use limits::ROOM;
