// What is explained in the trials beside their jobs, and which pairs are tried; no explanation is made here.
//
// `worked` has cases that can be checked by hand, `crowded` pseudo-random scores of few pitches, and `tried` the columns and
// shifts at which a score is explained. The functions promise only to be safe and to end.

#![tactic(auto)]

pub mod crowded;
pub mod tried;
pub mod worked;
