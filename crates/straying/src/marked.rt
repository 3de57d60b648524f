// The places that are lent for a route. Each is marked with a number that is no track, so that one that should be untouched shows
// it.

use judging::marks::put_marks;

// The most places that are lent.
pub const ALL_PLACES: usize = 80;

pub type Places = [u8; 80];

pub(crate) fn marked_places() -> Places {
    let mut places = [0; 80];
    put_marks(&mut places, 0, ALL_PLACES);
    places
}
