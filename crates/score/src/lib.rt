// A score, and what is turned away of it.
//
// `limits` names the numbers that a score is held to; `quantities` keeps pitch, interval, class, distance and column apart;
// `refusals` says what a refusal holds; `checks` says what is refused and where.

#![tactic(auto)]

pub mod checks;
pub mod limits;
pub mod quantities;
pub mod refusals;

pub use checks::{check_score, check_sets, columns_in};
pub use limits::{
    HIGHEST_PITCH, HIGHEST_SET, MOST_CELLS, MOST_COLUMNS, MOST_TRACKS, REST, TABLE_WORDS,
};
pub use quantities::{Class, Column, Distance, Interval, Pitch, class_of, interval_of};
pub use refusals::{Refusal, Rule};
