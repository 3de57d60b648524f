// A route of the library beside the second router's: the refusal, the changes, and all places, also those that were not lent.

use crate::calling::Stray;
use crate::marked::{ALL_PLACES, Places};
use detours::detour::Detour;
use judging::marks::kept;
use second::asks::Ask;

// How many places a call writes: one for each note, or none where it is refused.
pub fn written_by<T: Copy, E: Copy>(a: Ask, answer: Result<T, E>) -> usize {
    if answer.is_ok() { a.notes } else { 0 }
}

// Whether the answer and the places are those that are due.
pub fn as_due(places: &Places, a: Ask, answer: Stray, due: Detour) -> bool {
    match due {
        Err(away) => answer == Err(away) && kept(places, 0, ALL_PLACES),
        Ok(best) => {
            answer == Ok(best.changes)
                && places.get(..a.notes) == best.path.get(..a.notes)
                && kept(places, a.notes, ALL_PLACES)
        }
    }
}
