// Whether a pair is listed, and by which tracks each of its notes is then held.

ghost use Rattle.std.specs.Prelude.{◌≡◌, ◌&&◌, ◌≤◌, ltb, length};
ghost use Rattle.score.specs.Score.{column_at, column, score_of, heard};
ghost use Rattle.routing.specs.Route.{way_as};
ghost use Rattle.routing.specs.Routing.{is_listed, is_listed_by};
ghost use Rattle.routing.specs.TrackSets.{FoundAt};

use crate::along::held_behind;
use crate::tune::Tune;
use passing::is_empty;
use score::columns_in;
use ways::{AnyWay, Pair, Way, code_of, no_shift};

// Whether the pair is listed, of any way; if so, the set of the tracks that hold each note is left over the front of `sets`. A
// written pair is an exact one with shift 0.
pub fn held_at(tune: &Tune, way: AnyWay, pair: Pair, sets: &mut [u32]) -> bool
    requires { length tune.now.theme.now ≤ length sets.old }
    ensures { FoundAt (is_listed way (score_of tune.now.cells.now tune.now.tracks) tune.now.theme.now pair) (way_as way)
        (score_of tune.now.cells.now tune.now.tracks) tune.now.theme.now pair sets.old result sets.new }
{
    // one call for both, which is inlined; with a call in each arm it is not, `tune` goes through memory, and a route along one
    // track takes a third more time
    let (w, asked) = match way {
        AnyWay::Moved(w) => (w, true),
        AnyWay::Written => (Way::Exact, pair.shift == 0),
    };
    asked && held_moved(tune, w, pair, sets)
}

// Whether the score has a column of this number, and this column a pitch.
fn heard_at(tune: &Tune, j: usize) -> bool
    ensures { result ≡ (ltb 0 j && heard (column (score_of tune.now.cells.now tune.now.tracks) (column_at j))) }
{
    if j == 0 || columns_in(tune.cells, tune.tracks) < j {
        return false;
    }
    let base = (j - 1) * tune.tracks;
    let end = base + tune.tracks;
    !is_empty(&tune.cells[base..end])
}

// The same at a pair of a way that moves the theme: its shift, its column, its notes.
fn held_moved(tune: &Tune, way: Way, pair: Pair, sets: &mut [u32]) -> bool
    requires { length tune.now.theme.now ≤ length sets.old }
    ensures { FoundAt (is_listed_by way (score_of tune.now.cells.now tune.now.tracks) tune.now.theme.now pair) way
        (score_of tune.now.cells.now tune.now.tracks) tune.now.theme.now pair sets.old result sets.new }
{
    let Pair { column, shift } = pair;
    let j = column.0 as usize;
    if no_shift(way, shift) || !heard_at(tune, j) {
        return false;
    }
    held_behind(tune, way, code_of(way, shift), j - 1, sets)
}
