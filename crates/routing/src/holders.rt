// The tracks of a column that hold a note, as a set: bit t of its number is 1 where track t, from 1, holds the note. All cells
// are gone through whatever is found, so that many can be looked at together.

ghost use Rattle.std.specs.Prelude.{◌≡◌, Bool, ℕ, ◌≤◌, ◌<◌, length};
ghost use Rattle.score.specs.Limits.{most_tracks};
ghost use Rattle.seeking.specs.Track.{cell_holds};
ghost use Rattle.routing.specs.TrackSets.{set_of, holders};

use score::{HIGHEST_PITCH, Pitch};
use ways::Way;

// The code of exact's shift 0.
const UNMOVED: u32 = 127;

// The highest pitch by this code.
const HIGHEST: u32 = HIGHEST_PITCH as u32 + UNMOVED;

// The set of the tracks whose cell holds the note p moved by the code's shift; 0 where none does.
pub fn holders(column: &[u8], way: Way, code: u16, p: Pitch) -> u32
    requires { length column.now ≤ most_tracks }
    ensures { result ≡ holders way code p column.now }
{
    match way {
        Way::Exact => exact_set(column, code, p) * 2,
        Way::Octave => octave_set(column, code, p) * 2,
    }
}

// In exact each cell is asked for one pitch; where the moved note is no pitch, none is.
fn exact_set(column: &[u8], code: u16, p: Pitch) -> u32
    requires { length column.now ≤ most_tracks }
    ensures { result ≡ set_of (cell_holds Way.Exact code p) column.now }
{
    let moved = p.0 as u32 + code as u32;
    if moved < UNMOVED || HIGHEST < moved {
        return 0;
    }
    let wanted = (moved - UNMOVED) as u8;
    set_of(column, |cell| cell == wanted)
}

// In octave each cell is asked for the class of the moved note. It is computed once, and `&` asks without a branch, so that cells
// are looked at several together; with `cell_holds` as the test they are not, and a route along 16 tracks takes a third more time.
fn octave_set(column: &[u8], code: u16, p: Pitch) -> u32
    requires { length column.now ≤ most_tracks }
    ensures { result ≡ set_of (cell_holds Way.Octave code p) column.now }
{
    let class = ((p.0 as u32 + code as u32) % 12) as u8;
    set_of(
        column,
        |cell| (cell <= HIGHEST_PITCH) & (cell % 12 == class),
    )
}

// The cells that pass the test, the first cell as bit 0.
fn set_of<F: Fn(u8) -> bool>(column: &[u8], test: F) -> u32
    requires few { length column.now ≤ most_tracks }
    requires callable { F.IsAlwaysCallable test }
    ensures { (passes : ℕ → Bool) → ((cell : ℕ) (b : Bool) → cell < 256 → F.post test cell b → b ≡ passes cell)
        → result ≡ set_of passes column.now }
{
    let mut set: u32 = 0;
    for (i, &cell) in column.iter().enumerate() {
        set += (test(cell) as u32) << i;
    }
    set
}
