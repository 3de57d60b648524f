// What is noted of questions, updates and preparations that are tried.
//
// `answers` are the library's as plain numbers, with what differs. `lines` are what is written of them, `notes` counts them and
// writes out one that differs, and `totals` says how much was tried. The functions promise only to be safe and to end.

#![tactic(auto)]

pub mod answers;
pub mod lines;
pub mod notes;
pub mod totals;
