// What a search is asked for, and what is turned away.
//
// `limits` says how many notes a theme may have, and `checks` what is turned away of each call. Ways of matching and bookmarks
// are those of the crate `ways`.

#![tactic(auto)]

pub mod checks;
pub mod limits;

pub use checks::{
    check_page, check_plain, check_quick, check_request, check_theme, check_with_sets,
};
pub use limits::MOST_NOTES;
