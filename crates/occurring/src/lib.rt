// Does a theme occur in a score at all? Asked at each keystroke, so it is answered without a search where the summary of the
// sets settles it.
//
// `lacking` says whether the theme has an interval that the summary lacks, and `question` answers.

#![tactic(auto)]

mod lacking;
pub mod question;

pub use question::occurs;
