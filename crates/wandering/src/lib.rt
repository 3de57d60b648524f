// What is routed in the trials, and at which pairs; no route is made here.
//
// `shown` has cases that can be checked by hand, and `barred` what is turned away. `patterns` are all ways in which a few tracks
// can hold a few notes, `thick` pseudo-random small scores of few pitches, and `broad` large ones in which a theme was put into
// many tracks. `moves` says by what shift a theme stands in these, and `rooms` how many places are lent. The functions promise
// only to be safe and to end.

#![tactic(auto)]

pub mod barred;
pub mod broad;
mod moves;
pub mod patterns;
pub mod rooms;
pub mod shown;
pub mod thick;
