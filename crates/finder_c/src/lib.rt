// The finder for programs in other languages: thin calls over `preparing`, `search`, `occurring`, `updating`, `explaining` and
// `routing`, with numbers for ways and answers.
//
// `limits` names the numbers of an answer, `single` puts the answers of one number into one kind, `told` says an answer in
// numbers, `reasons` an explanation, and `calls` has the exported functions, which include/finder.h declares.

#![tactic(auto)]

pub mod calls;
mod limits;
mod reasons;
mod single;
mod told;
