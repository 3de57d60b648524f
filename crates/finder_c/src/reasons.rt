// An explanation in numbers: why the pair is listed or not, what the sets make of its column, and the 64 tracks.

ghost use Rattle.std.specs.Prelude.{◌≡◌, map, pos, length};
ghost use Rattle.seeking.specs.Limits.{most_sought};
ghost use Rattle.finder_c.specs.Limits.{explain_numbers};
ghost use Rattle.finder_c.specs.Reasons.{of_reason, of_sifted, explained_numbers, explanation_number, explanation_numbers};
ghost use Rattle.finder_c.specs.Small.{SmallExplanation};

use crate::told::{put_five, refusal_number};
use explaining::{Explanation, Reason, Sifted};
use score::Refusal;

// What the sets make of the column, as a number, and the interval that dismisses it, by its number and its size; 0 where there
// is none.
#[derive(Clone, Copy)]
pub struct SiftedNumbers {
    pub part: u8,
    pub interval: u8,
    pub size: u8,
}

// In C a reason is a number. The reason's number and the note's, 0 where the reason names no note. Listed is 0, and the reasons
// against it go up from 1 in the order in which the explainer asks them.
fn of_reason(reason: Reason) -> (u8, u8)
    ensures { result ≡ of_reason reason }
{
    match reason {
        Reason::Listed => (0, 0),
        Reason::NoShift => (1, 0),
        Reason::NoColumn => (2, 0),
        Reason::TooFew => (3, 0),
        Reason::Empty => (4, 0),
        Reason::Outside(note) => (5, note),
        Reason::Absent(note) => (6, note),
    }
}

// Unasked is 0, kept 1 and dismissed 2, which alone names an interval.
fn of_sifted(sifted: Sifted) -> SiftedNumbers
    ensures { result ≡ of_sifted sifted }
{
    match sifted {
        Sifted::Unasked => SiftedNumbers {
            part: 0,
            interval: 0,
            size: 0,
        },
        Sifted::Kept => SiftedNumbers {
            part: 1,
            interval: 0,
            size: 0,
        },
        Sifted::Dismissed(lacking) => {
            let size = lacking.size;
            SiftedNumbers {
                part: 2,
                interval: lacking.number,
                size: size.0,
            }
        }
    }
}

// Writes the 64 tracks into as many places.
fn put_tracks(tracks: &[u8], places: &mut [i64])
    requires tracks_len { length tracks.now ≡ most_sought }
    requires places_len { length places.old ≡ most_sought }
    ensures { places.new ≡ map pos tracks.now }
{
    for (i, &track) in tracks.iter().enumerate() {
        places[i] = i64::from(track);
    }
}

// Writes the 69 numbers: five in front, and the tracks behind them.
fn write_explanation(e: Explanation, answer: &mut [i64])
    requires { length answer.old ≡ explain_numbers }
    ensures { answer.new ≡ explained_numbers e }
{
    let (reason, note) = of_reason(e.reason);
    let sifted = e.sifted;
    let second = of_sifted(sifted);
    put_five(
        &mut answer[0..5],
        reason as i64,
        note as i64,
        second.part as i64,
        second.interval as i64,
        second.size as i64,
    );
    let tracks = e.tracks;
    put_tracks(&tracks, &mut answer[5..]);
}

// The result of an explanation: 0, and its numbers are written; or the refusal, and `answer` is as it was.
pub fn told_explanation(e: Result<Explanation, Refusal>, answer: &mut [i64]) -> i64
    requires small_explanation { SmallExplanation e }
    requires answer_len { length answer.old ≡ explain_numbers }
    ensures value { result ≡ explanation_number e }
    ensures answer_after { answer.new ≡ explanation_numbers e answer.old }
{
    match e {
        Err(r) => refusal_number(r),
        Ok(e) => {
            write_explanation(e, answer);
            0
        }
    }
}
