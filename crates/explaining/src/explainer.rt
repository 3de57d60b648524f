// The explainer: why a pair is listed or not, in exact or octave.

ghost use Rattle.std.specs.Prelude.{Ok, ◌≡◌};
ghost use Rattle.score.specs.Score.{score_of};
ghost use Rattle.score.specs.Refusals.{verdict};
ghost use Rattle.explaining.specs.Explaining.{bare, explained, explain_rows, explanation};
ghost use Rattle.explaining.specs.Inner.{first_of, by_notes, at_fit};

use crate::answer::{Explanation, Reason, Sifted};
use crate::fits::{Fit, fit_by};
use crate::intervals::Sieve;
use crate::notes::{Placed, failed};
use asking::{MOST_NOTES, check_request};
use score::{Pitch, Refusal, check_sets};
use search::{Pair, Way};
use seeking::{MOST_SOUGHT, sought};
use ways::{code_of, no_shift};

// Explains the pair: it is listed, with the lowest track that holds each note, or the first reason why not; and, where the column
// fits, whether the lent sets, which may come from any score, keep the column or dismiss it. Refuses 1 to 7. Writes nothing.
pub fn explain(
    cells: &[u8],
    tracks: usize,
    theme: &[u8],
    way: Way,
    pair: Pair,
    sets: &[u16],
) -> Result<Explanation, Refusal>
    ensures { result ≡ explanation cells.now tracks theme.now way pair sets.now }
{
    check_explained(cells, tracks, theme, sets)?;
    Ok(explained(cells, tracks, theme, way, pair, sets))
}

// Refusals 1 to 7, for a score and a theme with lent sets.
fn check_explained(cells: &[u8], tracks: usize, theme: &[u8], sets: &[u16]) -> Result<(), Refusal>
    ensures { result ≡ verdict (explain_rows cells.now tracks theme.now sets.now) }
{
    check_request(cells, tracks, theme, MOST_NOTES)?;
    check_sets(cells, tracks, sets)
}

// An answer that is a reason alone.
fn bare(reason: Reason) -> Explanation
    ensures { result ≡ bare reason }
{
    Explanation {
        reason,
        tracks: [0; MOST_SOUGHT],
        sifted: Sifted::Unasked,
    }
}

// The same of what is accepted.
fn explained(
    cells: &[u8],
    tracks: usize,
    theme: &[u8],
    way: Way,
    pair: Pair,
    sets: &[u16],
) -> Explanation
    requires { verdict (explain_rows cells.now tracks theme.now sets.now) ≡ Ok tt }
    ensures { result ≡ explained way (score_of cells.now tracks) theme.now pair sets.now }
{
    let column = pair.column;
    let shift = pair.shift;
    let numbers = sought(cells, tracks, column);
    let fit = fit_by(&numbers, theme.len(), column);
    match fit {
        Fit::Zero => bare(first_of(way, shift, Reason::NoColumn)),
        Fit::Short => bare(first_of(way, shift, Reason::TooFew)),
        Fit::NoPitch => bare(first_of(way, shift, Reason::Empty)),
        Fit::Fits => {
            let numbers = &numbers[..];
            let sieve = Sieve {
                theme,
                sets,
                numbers,
            };
            let placed = Placed {
                cells,
                tracks,
                theme,
                numbers,
            };
            at_fit(&placed, way, shift, sieve.sift())
        }
    }
}

// The shift is looked at before the column.
fn first_of(way: Way, shift: i16, otherwise: Reason) -> Reason
    ensures { result ≡ first_of way shift otherwise }
{
    if no_shift(way, shift) {
        return Reason::NoShift;
    }
    otherwise
}

// At a column that fits: what the sets make of it rests on the column alone.
fn at_fit(placed: &Placed, way: Way, shift: i16, by_sets: Sifted) -> Explanation
    ensures { result ≡ at_fit way shift (score_of placed.now.cells.now placed.now.tracks)
        placed.now.theme.now placed.now.numbers.now by_sets }
{
    if no_shift(way, shift) {
        return Explanation {
            reason: Reason::NoShift,
            tracks: [0; MOST_SOUGHT],
            sifted: by_sets,
        };
    }
    by_notes(placed, way, code_of(way, shift), by_sets)
}

// And with a shift of the way: by the notes.
fn by_notes(placed: &Placed, way: Way, code: u16, sifted: Sifted) -> Explanation
    ensures { result ≡ by_notes way code (score_of placed.now.cells.now placed.now.tracks)
        placed.now.theme.now placed.now.numbers.now sifted }
{
    let k = placed.first_failing(way, code);
    if k < placed.theme.len() {
        let reason = failed(way, code, Pitch(placed.theme[k]), (k + 1) as u8);
        return Explanation {
            reason,
            tracks: [0; MOST_SOUGHT],
            sifted,
        };
    }
    Explanation {
        reason: Reason::Listed,
        tracks: placed.tracks_of(way, code),
        sifted,
    }
}
