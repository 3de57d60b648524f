// A call of the library beside the second finder.
//
// `calls` are the library's pages on the lent buffers, with their answers as plain numbers. `turns` marks what is lent, makes a
// call, and compares what it did. The functions promise only to be safe and to end, but for the buffers as a call left them.

#![tactic(auto)]

mod calls;
pub mod turns;
