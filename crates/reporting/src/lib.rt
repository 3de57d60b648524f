// What the trials write.
//
// `pieces` are what a line is made of: numbers, pairs and what a change makes of something. `heads` stand before a job's answers.
// `lines` are what is written of answers: those that are to be said, one that differs, and how much was tried. The functions
// promise only to be safe and to end.

#![tactic(auto)]

pub mod heads;
pub mod lines;
pub mod pieces;
