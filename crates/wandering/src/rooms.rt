// How many places are lent for a route.

use second::asks::Ask;
use second::totals::{less_one, more};

// The most that are lent.
const ALL: usize = 80;

// By a number, for m notes: mostly a place for each, at times more, and at times too few.
pub fn places_for(m: usize, k: usize) -> usize {
    match k % 16 {
        0 => 0,
        1 => less_one(m),
        2 => 1,
        3 => more(m, 1),
        4 => more(m, 2),
        5 => more(m, 13),
        6 => ALL,
        _ => m,
    }
}

// By a number too, and never too few.
pub fn enough_for(m: usize, k: usize) -> usize {
    match k % 4 {
        0 => more(m, 3),
        _ => m,
    }
}

// What is asked, with so many places.
pub fn lending(a: Ask, places: usize) -> Ask {
    Ask {
        columns: places,
        ..a
    }
}
