// Pages over any search: what a page call answers, and where its next page goes on.
//
// A search lists pairs. A `page` is the part of the list that one call writes: how many pairs, the next bookmark, whether the
// list is finished, and the looks. What holds of pages holds of every search: it is said and proved here once.

#![tactic(auto)]

pub mod page;

pub use page::{Turn, turned};
