// The notes of a theme in the columns in which they are sought.

ghost use Rattle.std.specs.Prelude.{◌≡◌, ◌<◌, length, get_or};
ghost use Rattle.score.specs.Score.{column_at, column, score_of};
ghost use Rattle.explaining.specs.Explaining.{failed, held, tracks_of};
ghost use Rattle.explaining.specs.Inner.{column_by, ColumnsThere};

use crate::answer::Reason;
use holding::holds_at;
use score::Pitch;
use seeking::{MOST_SOUGHT, lowest_track};
use ways::Way;

// A theme placed on a score: beside the notes stand the numbers of the columns in which they are sought, all of them columns of
// the score.
#[derive(Clone, Copy)]
pub struct Placed<'a> {
    pub cells: &'a [u8],
    pub tracks: usize,
    pub theme: &'a [u8],
    pub numbers: &'a [usize],
    ghost columns_there: { ColumnsThere cells.now tracks theme.now numbers.now },
}

impl<'a> Placed<'a> {
    // The cells of the column in which a note is sought.
    fn column_of(&self, i: usize) -> &'a [u8]
        requires { i < length self.now.theme.now }
        ensures { result.now
            ≡ column (score_of self.now.cells.now self.now.tracks) (column_at (get_or self.now.numbers.now i 0)) }
    {
        let base = (self.numbers[i] - 1) * self.tracks;
        let end = base + self.tracks;
        &self.cells[base..end]
    }

    // How many notes come before the first that its column does not hold; all of them where there is none. It goes from the last
    // note to the first, so the first that fails is the one that stays.
    #[tactic(auto, using(crate::proofs::NoteByNote::note_fails, crate::proofs::NoteByNote::note_held))]
    pub fn first_failing(&self, way: Way, code: u16) -> usize
        ensures { result ≡ held way code self.now.theme.now
            (column_by (score_of self.now.cells.now self.now.tracks) self.now.numbers.now) }
    {
        let mut found = self.theme.len();
        for i in (0..self.theme.len()).rev() {
            if !holds_at(self.column_of(i), way, code, Pitch(self.theme[i])) {
                found = i;
            }
        }
        found
    }

    // The lowest track that holds each note, in 64 places from the front.
    pub fn tracks_of(&self, way: Way, code: u16) -> [u8; MOST_SOUGHT]
        ensures { result ≡ tracks_of way code self.now.theme.now
            (column_by (score_of self.now.cells.now self.now.tracks) self.now.numbers.now) }
    {
        let mut named = [0u8; MOST_SOUGHT];
        for (i, &note) in self.theme.iter().enumerate() {
            named[i] = lowest_track(self.column_of(i), way, code, Pitch(note)) as u8;
        }
        named
    }
}

// Why note p, of this number, is not held: moved it lies outside 0 to 127, which octave never asks, or it is absent.
pub fn failed(way: Way, code: u16, p: Pitch, number: u8) -> Reason
    ensures { result ≡ failed way code p number }
{
    let moved = p.0 as u32 + code as u32;
    match way {
        Way::Exact if moved < 127 || 254 < moved => Reason::Outside(number),
        _ => Reason::Absent(number),
    }
}
