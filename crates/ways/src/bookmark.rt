// A found place, and where a search goes on.

ghost use Rattle.std.specs.Prelude.{◌≡◌};
ghost use Rattle.ways.specs.Way.{range_as};
ghost use Rattle.ways.specs.Bookmarks.{first_bookmark, after_pair, finished_bookmark};

use crate::codes::{lowest_as, raised};
use crate::way::AnyWay;
use score::Column;

// The theme stands at this column with this shift: score minus theme.
#[derive(Clone, Copy)]
pub struct Pair {
    pub column: Column,
    pub shift: i16,
}

// The first pair to consider.
#[derive(Clone, Copy)]
pub struct Bookmark {
    pub column: Column,
    pub shift: i16,
}

impl Bookmark {
    // Where a list begins: column 1, and the way's lowest shift.
    pub fn first(way: AnyWay) -> Bookmark
        ensures { result ≡ first_bookmark (range_as way) }
    {
        let shift = lowest_as(way);
        Bookmark {
            column: Column(1),
            shift,
        }
    }

    // Just after a pair: its shift raised by one. A shift of 32,767, which no pair has, stays.
    pub fn after(pair: Pair) -> Bookmark
        ensures { result ≡ after_pair pair }
    {
        let column = pair.column;
        let shift = raised(pair.shift);
        Bookmark { column, shift }
    }

    // Past the last column, with the way's lowest shift. A last column of 65,535, which no score has, stays.
    pub fn finished(way: AnyWay, last: Column) -> Bookmark
        ensures { result ≡ finished_bookmark (range_as way) last }
    {
        let shift = lowest_as(way);
        let n = last.0;
        if n < 65535 {
            return Bookmark {
                column: Column(n + 1),
                shift,
            };
        }
        Bookmark {
            column: Column(65535),
            shift,
        }
    }
}
