// What a column holds, one code at a time.
//
// A column may have `held` a note moved by a code's shift; and the `next` code is the first, from one on, at which it does.

#![tactic(auto)]

pub mod held;
pub mod next;

pub use held::holds_at;
pub use next::next_code;
