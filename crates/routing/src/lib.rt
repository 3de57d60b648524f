// Who plays a listed tune? A track for each note, with the fewest changes of track.
//
// `router` has the call, and a `tune` is what the route is sought in. `holders` finds the tracks of a column that hold a note, as
// a set, and `along` those of each note of a theme, `standing` at a pair. `fewest` goes through these sets from the last to the
// first, and `choosing` chooses a track from each, from the first to the last.

#![tactic(auto)]

mod along;
mod choosing;
mod fewest;
mod holders;
pub mod router;
mod standing;
mod tune;

pub use router::route;
