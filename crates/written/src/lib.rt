// The tune in its own key: the columns at which a theme stands as it is written. The search goes along the columns that it is
// handed, one after another; empty columns, those without a pitch, are taken out before, by its caller.
//
// The `words` say for each pitch at which notes of the theme it stands. The `walk` takes the words of a column's pitches into a
// register, column by column, which then marks where the theme has just ended. The `page` checks what is asked and walks.

#![tactic(auto)]

pub mod page;
mod walk;
mod words;

pub use page::written_page;
