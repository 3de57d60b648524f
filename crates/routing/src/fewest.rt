// The fewest changes that are left from each note on, and the tracks from which they are so few.

ghost use Rattle.std.specs.Prelude.{◌≡◌, ◌≤◌, length};
ghost use Rattle.routing.specs.TrackSets.{TracksThere, Best, least_of};

// The set that stands for the note behind the last, which any track may have.
const EVERY_TRACK: u32 = u32::MAX;

// For each note of a theme the set of the tracks that hold it.
#[derive(Clone, Copy)]
pub struct NoteSets<'a> {
    pub sets: &'a [u32],
    ghost tracks_there: { TracksThere sets.now },
}

// How many changes the notes have at least; `best` then has for each note the best of the tracks that hold it: those from
// which the fewest changes are left. It goes from the last note to the first. A track that is best for the next note is best for
// this one if it holds it. Where there is no such track the route changes, and all tracks that hold this note are equally good.
pub fn backward(notes: &NoteSets, best: &mut [u32]) -> u8
    requires { length notes.now.sets.now ≤ length best.old }
    ensures { (result ≡ least_of notes.now.sets.now) × Best notes.now.sets.now best.new }
{
    let mut changes: u8 = 0;
    let mut next = EVERY_TRACK;
    for i in (0..notes.sets.len()).rev() {
        let set = notes.sets[i];
        let both = set & next;
        if both == 0 {
            changes += 1;
            next = set;
        } else {
            next = both;
        }
        best[i] = next;
    }
    changes
}
