// The second explainer: why a pair is listed or not, and what the lent sets make of its column, written from the requirement's
// words alone and over the second finder; no crate of the library is in sight. It is here to be compared with.
//
// `answers` are explanations as plain numbers. `columns` looks at the pair's column by itself, and says in which column each note
// is sought; `notes` goes through the notes and `intervals` through the lent sets; `explainer` puts them together, behind what is
// turned away. Columns, notes, intervals and tracks count from 1. A reason promises which note it names; all else promises only
// to be safe and to end, on purpose.

#![tactic(auto)]

pub mod answers;
mod columns;
pub mod explainer;
mod intervals;
pub mod notes;
