// Where the notes of a theme are sought, and which track holds one.
//
// `limits` says for how many notes; `columns` has the columns of a theme that begins at a given one, which pass over those
// without a pitch, and `track` the lowest track of a column that holds a note.

#![tactic(auto)]

pub mod columns;
pub mod limits;
pub mod track;

pub use columns::sought;
pub use limits::MOST_SOUGHT;
pub use track::{cell_holds, lowest_track};
