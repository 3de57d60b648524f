// What a job of the trials is, and the jobs that are written out number by number; no page is asked for here.
//
// `job` says what a job is. What it asks comes from `shapes`, and from `changes` to what is asked. `worked` has the worked
// cases, and `refused` what is turned away. `buffers` are lent. The functions promise only to be safe and to end, but for those
// that make, lend and fill buffers and a few small ones, which say what they give.

#![tactic(auto)]

pub mod buffers;
pub mod changes;
pub mod job;
pub mod refused;
pub mod shapes;
pub mod worked;
