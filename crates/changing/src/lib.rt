// A question, an update or a preparation of the library beside the second finder.
//
// `calls` are the library's, on the lent buffers, with their answers as plain numbers. `verdicts` hold an answer against the
// second finder's, and `turns` marks what is lent, makes a call, and compares what it did. The functions promise only to be safe
// and to end.

#![tactic(auto)]

mod calls;
pub mod turns;
mod verdicts;
