// Where a walk stands, and how far it has come.

ghost use Rattle.std.specs.Prelude.{◌≡◌, ◌+◌, ◌≤◌};

use score::Column;
use ways::{Bookmark, Way, code_of};

// The starts of this column from this code on are to be tried, and so many pairs are found: as many places of the buffers are
// taken.
#[derive(Clone, Copy)]
pub struct Spot {
    pub column: Column,
    pub code: u16,
    pub found: usize,
}

// The pairs found, and the looks.
#[derive(Clone, Copy)]
pub struct Walked {
    pub found: usize,
    pub looks: u32,
}

impl Spot {
    ghost use Rattle.walking.specs.Walk.{begun, gone_on, at_column};

    // The spot at which a walk from a bookmark begins.
    pub fn begin(way: Way, bookmark: Bookmark) -> Self
        ensures { result ≡ begun way bookmark }
    {
        Spot {
            column: bookmark.column,
            code: code_of(way, bookmark.shift),
            found: 0,
        }
    }

    // The spot at the first code of the column so many further on.
    pub fn go_on(self, further: usize, found: usize) -> Self
        requires { self.column.0 + further ≤ 65535 }
        ensures { result ≡ gone_on (self.column.0 + further) found }
    {
        Spot {
            column: Column(self.column.0 + further as u16),
            code: 0,
            found,
        }
    }

    // The spot on a column where so many are found. The code counts on its own column only.
    pub fn at(self, column: Column, found: usize) -> Self
        ensures { result ≡ at_column self column found }
    {
        let code = if self.column.0 == column.0 {
            self.code
        } else {
            0
        };
        Spot {
            column,
            code,
            found,
        }
    }
}
