// What stands at a place of a text: a word, a number, a cell.
//
// `bytes` reads a digit or a word, `numbers` a number or a cell. Places only go forward.

#![tactic(auto)]

mod bytes;
pub mod numbers;

pub use bytes::stands;
pub use numbers::{Numeral, cell};
