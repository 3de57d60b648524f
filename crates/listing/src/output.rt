// The call: from an input to its whole output.

ghost use Rattle.std.specs.Prelude.{◌≤◌, length};
ghost use Rattle.score.specs.Limits.{most_cells};
ghost use Rattle.asking.specs.Limits.{most_notes};
ghost use Rattle.telling.specs.Telling.{told, Tells};
ghost use Rattle.listing.specs.Answer.{output};
ghost use Rattle.listing.specs.Listing.{Lists};

use asking::MOST_NOTES;
use reading::{ReadError, read};
use score::MOST_CELLS;
use telling::{ROOM, TellError, refuse, tell};

// The output buffer is too short for some inputs, and nothing was written.
#[derive(Clone, Copy, Debug, PartialEq, Eq)]
pub struct TooShort;

// Writes the whole output of the input from the front of a buffer of 458,546 bytes or more, and keeps what stands behind it;
// gives how many bytes it wrote. No input needs more room. A shorter buffer is turned away, whatever the input is.
#[tactic(auto, using(crate::proofs::Listings::list_short))]
pub fn list(input: &[u8], out: &mut [u8]) -> Result<usize, TooShort>
    ensures { Lists input.now out.old result out.new }
{
    if out.len() < ROOM {
        return Err(TooShort);
    }
    let mut theme = [0u8; MOST_NOTES];
    let mut cells = [0u8; MOST_CELLS];
    // there is room, and what is read right is accepted: it is always told
    answer(input, &mut theme, &mut cells, out).map_err(|_| TooShort)
}

// The output, by way of room for a theme and for cells.
fn answer(
    input: &[u8],
    theme: &mut [u8],
    cells: &mut [u8],
    out: &mut [u8],
) -> Result<usize, TellError>
    requires { (most_notes ≤ length theme.old) × (most_cells ≤ length cells.old) }
    ensures { Tells (told (output input.now) out.old) result out.new }
{
    match read(input, theme, cells) {
        Ok(r) => {
            let long = r.columns * r.tracks;
            tell(&cells[..long], r.tracks, &theme[..r.notes], r.way, out)
        }
        Err(ReadError::Bad { line }) => refuse(line, out),
        Err(ReadError::Short) => Err(TellError::Short), // there is room for every input
    }
}
