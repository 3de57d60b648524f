// The cases that the trials run; no page is asked for here.
//
// `families` has every job by its number: those of `jobs`, then small `worlds`, `random` scores, and scores at the `edges`;
// then those with columns that hold no pitch: the jobs of `gapped`, and `random` scores with columns emptied. `arranging` puts
// a job into the lent buffers. The functions promise only to be safe and to end, and a count that is divided by to be above 0.

#![tactic(auto)]

pub mod arranging;
mod edges;
pub mod families;
mod random;
mod worlds;
