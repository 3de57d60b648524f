// A route of the library beside the second router's, and what is noted of it.
//
// `marked` are the places that are lent for a route, each with a mark of its own. `calling` asks for the library's route on them,
// as plain numbers, and `beside` holds it against the second router's. `told` is what is written of routes, `strays` asks for
// one, compares and counts it, and `tallies` says how many there were. The functions promise only to be safe and to end.

#![tactic(auto)]

mod beside;
mod calling;
mod marked;
pub mod strays;
pub mod tallies;
pub mod told;
