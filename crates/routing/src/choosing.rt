// The tracks of the route, chosen from the first note to the last.

ghost use Rattle.std.specs.Prelude.{◌≡◌, ◌≤◌, ◌<◌, length};
ghost use Rattle.theory.specs.Lists.{over};
ghost use Rattle.routing.specs.TrackSets.{Best, least_of, next_track, chosen};

use crate::fewest::{NoteSets, backward};
use asking::MOST_NOTES;

// The track after track t, for a note that the tracks of the set hold, with the best of them. If t is best it stays. Otherwise
// the track has to change, here or later: the lowest that is best is taken, or t itself if it is lower and holds the note.
#[tactic(auto, using(crate::proofs::NextTrack::next_stays, crate::proofs::NextTrack::next_goes))]
fn next_track(t: u32, set: u32, best: u32) -> u32
    requires { (t < 32) × (0 < best) }
    ensures { result ≡ next_track t set best }
{
    if (best >> t) & 1 == 1 {
        return t;
    }
    (best | (set & (1 << t))).trailing_zeros()
}

// Writes the tracks of the notes. No track is number 0, so the first note's is the lowest of its best.
fn choose(notes: &NoteSets, best: &[u32], route: &mut [u8])
    requires { Best notes.now.sets.now best.now × (length notes.now.sets.now ≤ length route.old) }
    ensures { route.new ≡ over route.old (chosen 0 notes.now.sets.now) }
{
    let mut t: u32 = 0;
    for (i, &set) in notes.sets.iter().enumerate() {
        t = next_track(t, set, best[i]);
        route[i] = t as u8;
    }
}

// Writes the route over the front, a place for each note, and gives its changes.
pub fn write_route(notes: &NoteSets, route: &mut [u8]) -> u8
    requires { length notes.now.sets.now ≤ length route.old }
    ensures { (result ≡ least_of notes.now.sets.now) × (route.new ≡ over route.old (chosen 0 notes.now.sets.now)) }
{
    let mut best = [0u32; MOST_NOTES];
    let changes = backward(notes, &mut best);
    choose(notes, &best, route);
    changes
}
