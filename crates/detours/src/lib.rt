// The second router: the route of a listed pair with the fewest changes of track, written from the requirement's words alone and
// over the second finder; no crate of the library is in sight. It is here to be compared with.
//
// `paths` are routes as plain numbers. `pairs` asks the second finder whether a pair is listed; `spots` says in which column each
// note is sought, and which tracks hold it there. There are two methods: `every` tries every route there is, and `ahead` counts
// the fewest changes that lie ahead of each note in each track. `detour` puts them together, behind what is turned away. Columns
// and tracks count from 1, notes from 0. The functions promise only to be safe and to end, on purpose.

#![tactic(auto)]

mod ahead;
pub mod detour;
mod every;
mod pairs;
pub mod paths;
mod spots;
