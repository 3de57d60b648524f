// All starts of a column at once: a word has a bit for each that is alive, and each note that follows leaves those at which
// the next column holds it.

ghost use Rattle.std.specs.Prelude.{◌≡◌, ◌+◌, ◌≤◌, ◌<◌, length};
ghost use Rattle.score.specs.Score.{columns_in, score_of};
ghost use Rattle.masks.specs.Masks.{value};
ghost use Rattle.walking.specs.Walk.{Fits, Stands, TriesColumn};
ghost use Rattle.walking.specs.Alive.{Cached, Followed};

use crate::column::try_column;
use crate::ring::Ring;
use crate::tune::Tune;
use crate::walked::{Spot, Walked};
use hits::put_hits;
use masks::{Word, all_starts, moved, width_of};
use score::{Column, Pitch};

// The starts of a column that are hits, and the looks of all its starts.
#[derive(Clone, Copy)]
pub struct Alive {
    pub word: Word,
    pub looks: u32,
}

// Follows all starts of the column note by note, until none is alive or the theme ends. The first note is treated as the
// others are, and what it costs is taken off at the end: a start is not looked for.
fn follow(tune: &Tune, column: Column, ring: &mut Ring) -> Alive
    requires fits { Fits (columns_in tune.now.cells.now tune.now.tracks) (length tune.now.theme.now) column.0 }
    requires cached { Cached tune.now.way tune.now.cells.now tune.now.tracks ring.old }
    ensures { Followed tune.now.way (score_of tune.now.cells.now tune.now.tracks) tune.now.theme.now column.0
        (value result.word.low result.word.high) result.looks
        × Cached tune.now.way tune.now.cells.now tune.now.tracks ring.new }
{
    let first = Pitch(tune.theme[0]);
    let spare = width_of(tune.way);
    let all = all_starts(tune.way);
    let mut low = all.low;
    let mut high = all.high;
    let mut looks: u32 = 0;
    for (k, &note) in tune.theme.iter().enumerate() {
        if (low | high) == 0 {
            break;
        }
        looks += low.count_ones() + high.count_ones();
        let w = ring.word_at(tune, column, k);
        let held = moved(tune.way, w, first, Pitch(note));
        low &= held.low;
        high &= held.high;
    }
    Alive {
        word: Word { low, high },
        looks: looks - spare,
    }
}

// Tries the starts of the spot's column from its code on, until none is left or no room: all at once where the code leaves none
// out, there are tracks to share them and room for every hit; otherwise one by one.
pub fn try_all(
    tune: &Tune,
    spot: Spot,
    columns: &mut [u16],
    shifts: &mut [i16],
    ring: &mut Ring,
) -> Walked
    requires stands { Stands tune.now.way (columns_in tune.now.cells.now tune.now.tracks) (length tune.now.theme.now)
        spot columns.old shifts.old }
    requires cached { Cached tune.now.way tune.now.cells.now tune.now.tracks ring.old }
    ensures { TriesColumn tune.now.way tune.now.cells.now tune.now.tracks tune.now.theme.now spot
        columns.old shifts.old result columns.new shifts.new × Cached tune.now.way tune.now.cells.now tune.now.tracks ring.new }
{
    if spot.code == 0 && tune.tracks != 1 {
        let a = follow(tune, spot.column, ring);
        let hits = a.word.low.count_ones() + a.word.high.count_ones();
        if (hits as usize) < columns.len() - spot.found {
            return Walked {
                found: put_hits(
                    columns,
                    shifts,
                    spot.found,
                    a.word,
                    Pitch(tune.theme[0]),
                    spot.column,
                    tune.way,
                ),
                looks: a.looks,
            };
        }
    }
    try_column(tune, spot, columns, shifts)
}
