// From a theme to a page of pairs: a `page` is what a call writes and answers.
//
// It goes `along` the columns of a score one after another; where some of them are empty, those are `passed` over.

#![tactic(auto)]

mod along;
pub mod page;
mod passed;

pub use page::{plain_page, quick_page};
pub use paging::Turn;
pub use ways::{AnyWay, Bookmark, Pair, Way};
