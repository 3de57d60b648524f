// Scores with columns that hold no pitch, for the cases of the trials; no page is asked for here.
//
// `gaps` has jobs of small scores, `beats` those of small scores of one pitch and rests alone, and `spreads` those of themes
// that are spread over a score, with the scores and the themes. `spelling` spells out scores by a number. `sparse` makes
// pseudo-random scores with columns emptied, and their themes. `drawing` has what is drawn for them, and for the pseudo-random
// scores of `cases`. The functions promise only to be safe and to end, a few counts that are divided by to be above 0, and `spelling` what it
// spells.

#![tactic(auto)]

pub mod beats;
pub mod drawing;
pub mod gaps;
pub mod sparse;
pub mod spelling;
pub mod spreads;
