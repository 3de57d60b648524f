// What an answer is, and the judging of it beside the second finder; no page is asked for here.
//
// `answers` are the library's as plain numbers, `marks` show what is untouched, and `compare` holds an answer against the second
// finder's. `answers` and `marks` say what they give; of a verdict `compare` says which calls can be right, and which faults it has.

#![tactic(auto)]

pub mod answers;
pub mod compare;
pub mod marks;
