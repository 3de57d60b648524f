// The answer of a page call, and how it is read off the buffers that a search has written.

ghost use Rattle.std.specs.Prelude.{◌≡◌};
ghost use Rattle.paging.specs.Lent.{lent};
ghost use Rattle.paging.specs.Turning.{read_turn, unfilled};

use score::Column;
use ways::{Bookmark, Pair};

// A page: how many pairs were written, where the next page goes on, whether the list is finished, and the looks. A finished list
// has a next bookmark too, its end, so `finished` guards no value, and C is told all of them.
#[derive(Clone, Copy)]
pub struct Turn {
    pub written: usize,
    pub next: Bookmark,
    pub finished: bool,
    pub looks: u32,
}

// Whether the buffers have room left after so many pairs. Buffers without a place, or with fewer shifts than columns, always
// have.
#[tactic(auto, unfolding(crate::specs::Turning::unfilled))]
fn room_left(found: usize, columns: usize, shifts: usize) -> bool
    ensures { result ≡ unfilled found columns shifts }
{
    if found < columns {
        return true;
    }
    if columns == 0 {
        return true;
    }
    shifts < columns
}

// The answer after a search that found so many pairs: a full page goes on after the last pair written; another one is finished,
// and goes to `end`.
pub fn turned(end: Bookmark, found: usize, looks: u32, columns: &[u16], shifts: &[i16]) -> Turn
    ensures { result ≡ read_turn end found looks (lent columns.now shifts.now) }
{
    let room = columns.len();
    if room_left(found, room, shifts.len()) {
        return Turn {
            written: found,
            next: end,
            finished: true,
            looks,
        };
    }
    let last = Pair {
        column: Column(columns[room - 1]),
        shift: shifts[room - 1],
    };
    Turn {
        written: found,
        next: Bookmark::after(last),
        finished: false,
        looks,
    }
}
