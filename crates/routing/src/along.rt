// The notes of a theme along the columns in which they are sought: whether each is held there, and by which tracks.

ghost use Rattle.std.specs.Prelude.{◌≤◌, length, drop};
ghost use Rattle.score.specs.Score.{score_of, heard_of};
ghost use Rattle.routing.specs.TrackSets.{FoundAlong};

use crate::holders::holders;
use crate::tune::Tune;
use passing::is_empty;
use score::{Pitch, columns_in};
use ways::Way;

// Whether every note is held, moved by the code's shift, in the columns with a pitch behind so many; if so, the set of the tracks
// that hold each is left over the front of `sets`. A column in which a track holds the note has a pitch, so only the others are
// asked for one. It ends at the first note that its column does not hold.
pub fn held_behind(tune: &Tune, way: Way, code: u16, passed: usize, sets: &mut [u32]) -> bool
    requires { length tune.now.theme.now ≤ length sets.old }
    ensures { FoundAlong way code tune.now.theme.now (heard_of (drop passed (score_of tune.now.cells.now tune.now.tracks)))
        sets.old result sets.new }
{
    // a copy that no write to the sets can reach: through `tune` the fields are read again for each column, and a route along one
    // track takes half as much time again
    let own = *tune;
    let mut q: usize = 0;
    for k in passed..columns_in(own.cells, own.tracks) {
        let Some(&note) = own.theme.get(q) else {
            return true;
        };
        let base = k * own.tracks;
        let end = base + own.tracks;
        let column = &own.cells[base..end];
        let set = holders(column, way, code, Pitch(note));
        if set != 0 {
            sets[q] = set;
            q += 1;
        } else if !is_empty(column) {
            return false;
        }
    }
    q == own.theme.len()
}
