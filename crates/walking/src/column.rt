// The starts of a column, tried one by one: hits are written behind those found before.

ghost use Rattle.std.specs.Prelude.{length};
ghost use Rattle.score.specs.Score.{columns_in};
ghost use Rattle.walking.specs.Walk.{Stands, TriesColumn};

use crate::starts::try_start;
use crate::tune::Tune;
use crate::walked::{Spot, Walked};
use hits::keep;
use holding::next_code;
use score::Pitch;
use ways::span_of;

// Tries the starts of the spot's column from its code on, until none is left or no room.
pub fn try_column(tune: &Tune, spot: Spot, columns: &mut [u16], shifts: &mut [i16]) -> Walked
    requires stands { Stands tune.now.way (columns_in tune.now.cells.now tune.now.tracks) (length tune.now.theme.now)
        spot columns.old shifts.old }
    ensures { TriesColumn tune.now.way tune.now.cells.now tune.now.tracks tune.now.theme.now spot
        columns.old shifts.old result columns.new shifts.new }
{
    let from = (spot.column.0 as usize - 1) * tune.tracks;
    let to = from + tune.tracks;
    let p = Pitch(tune.theme[0]);
    let end = span_of(tune.way);
    let mut code = spot.code;
    let mut at = spot.found;
    let mut looks: u32 = 0;
    // from one code to the next that the column holds, which may lie far on
    while at < columns.len() {
        let next = next_code(&tune.cells[from..to], tune.way, p, code);
        if end <= next {
            return Walked { found: at, looks };
        }
        let t = try_start(tune, spot.column, next);
        looks += t.looks;
        at = keep(columns, shifts, at, t.hit, spot.column, tune.way, next);
        code = next + 1;
    }
    Walked { found: at, looks }
}
