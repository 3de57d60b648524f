// Starts: the places whose first note is present, and what is looked at from there.

ghost use Rattle.std.specs.Prelude.{◌≤◌, length};
ghost use Rattle.score.specs.Score.{columns_in, score_of};
ghost use Rattle.walking.specs.Walk.{Fits, Trial};

use crate::tune::Tune;
use holding::holds_at;
use score::{Column, Pitch};

// What trying a start finds: whether every note follows, and how many were looked for, which counts either way.
#[derive(Clone, Copy)]
pub struct Tried {
    pub hit: bool,
    pub looks: u32,
}

// Tries the start at this column and code: the notes from the second on, each in the next column.
pub fn try_start(tune: &Tune, column: Column, code: u16) -> Tried
    requires fits { Fits (columns_in tune.now.cells.now tune.now.tracks) (length tune.now.theme.now) column.0 }
    requires code_bound { code ≤ 255 }
    ensures { Trial tune.now.way (score_of tune.now.cells.now tune.now.tracks) tune.now.theme.now column.0 code
        result.hit result.looks }
{
    let j = column.0 as usize;
    let mut base = j * tune.tracks;
    let mut looks: u32 = 0;
    for &note in &tune.theme[1..] {
        looks += 1;
        let end = base + tune.tracks;
        if !holds_at(&tune.cells[base..end], tune.way, code, Pitch(note)) {
            return Tried { hit: false, looks };
        }
        base = end;
    }
    Tried { hit: true, looks }
}
