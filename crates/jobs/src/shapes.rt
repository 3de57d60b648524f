// The shape of what is asked: a score and a theme of so many tracks, columns and notes, and a room, from the first bookmark on.

ghost use Rattle.std.specs.Prelude.{◌≡◌};

use second::asks::{Ask, Call};
use second::totals::{less_one, product};
use second::ways::{Way, lowest};

// The rooms that pages are tried at.
const ROOMS: [usize; 5] = [1, 2, 3, 7, 40];

pub fn room_of(k: usize) -> usize {
    ROOMS[k % ROOMS.len()]
}

// The ways by their numbers: the two that count looks first. A number stays, since jobs are counted by turns and drawn by it.
pub fn way_of(k: usize) -> Way {
    match k {
        0 => Way::Exact,
        1 => Way::Octave,
        _ => Way::Written,
    }
}

// Plain and quick pages beside one another; in written, which has no quick ones, plain ones.
pub fn pages_in(way: Way) -> Call
    ensures { way ≡ Way.Written → result ≡ Call.Plain }
{
    match way {
        Way::Exact | Way::Octave => Call::Both,
        Way::Written => Call::Plain,
    }
}

pub fn ask_of(h: usize, n: usize, m: usize, way: Way, room: usize) -> Ask {
    Ask {
        h,
        cells: product(n, h),
        notes: m,
        sets: less_one(n),
        table: 4096,
        columns: room,
        shifts: room,
        way,
        column: 1,
        shift: lowest(way),
    }
}
