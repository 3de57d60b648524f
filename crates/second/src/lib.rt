// The second finder: written from the requirement's words alone, by another route than the library, and kept apart from it: no
// crate of the library is in sight. It is here to be compared with.
//
// `totals` has small steps that have an answer for every argument; `ways` has the shifts of each way, and `asks` what is asked;
// `score` looks at columns, and `finder` finds pairs, counts looks and judges sets and words of the theme's table; `away` says
// what is turned away; `summaries` makes the summary of sets, `questions` answers whether there is any pair, and `updates` judges
// sets that were brought up to date. Small steps promise what they give, in words of this crate alone (`specs/`): of shifts, of
// columns, of places and of a row; all else promises only to be safe and to end, on purpose.

#![tactic(auto)]

pub mod asks;
pub mod away;
pub mod finder;
pub mod questions;
pub mod score;
pub mod summaries;
pub mod totals;
pub mod updates;
pub mod ways;
