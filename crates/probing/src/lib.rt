// An explanation of the library beside the second explainer's, and what is noted of it.
//
// `calls` asks for the library's on the lent buffers, as plain numbers, and `compare` holds its tracks against the second
// explainer's. `lines` are what is written of explanations, `turns` asks for one, compares it and has it counted by `counts`, and
// `totals` says how many there were. The functions promise only to be safe and to end.

#![tactic(auto)]

mod calls;
mod compare;
pub mod counts;
pub mod lines;
pub mod totals;
pub mod turns;
