// The calls: the text of a search, or of a refused input, from the front of a buffer.

ghost use Rattle.std.specs.Prelude.{◌≡◌};
ghost use Rattle.telling.specs.declared.calls.TellError.TheVariants as telling;
ghost use Rattle.telling.specs.Lines.{refused_line};
ghost use Rattle.telling.specs.Telling.{told, search_told, Tells};

use crate::limits::ROOM;
use crate::pages::search_lines;
use crate::writing::Out;
use asking::{MOST_NOTES, check_request};
use score::Refusal;
use ways::AnyWay;

// Why nothing is told, and nothing written: what is turned away, or a buffer that is too short for some texts.
#[derive(Clone, Copy, Debug, PartialEq, Eq)]
pub enum TellError {
    Refused(Refusal),
    Short,
}

impl From<Refusal> for TellError {
    ghost from_gives = { λ r e. e ≡ telling.Refused r };

    fn from(r: Refusal) -> TellError {
        TellError::Refused(r)
    }
}

// Writes the lines of all pairs of a search, the quick way, or plainly as the tune is written, and the line behind them, from the
// front of a buffer of 458,546 bytes or more, and keeps what stands behind them; gives how many bytes it wrote. No search needs
// more room. Refuses 1 to 5, before a shorter buffer is turned away.
pub fn tell(
    cells: &[u8],
    tracks: usize,
    theme: &[u8],
    way: AnyWay,
    out: &mut [u8],
) -> Result<usize, TellError>
    ensures { Tells (search_told cells.now tracks theme.now way out.old) result out.new }
{
    check_request(cells, tracks, theme, MOST_NOTES)?;
    if out.len() < ROOM {
        return Err(TellError::Short);
    }
    Ok(search_lines(cells, tracks, theme, way, out))
}

// Writes the line that refuses an input by one of its lines, in the same way; it is never refused itself.
pub fn refuse(line: u32, out: &mut [u8]) -> Result<usize, TellError>
    ensures { Tells (told (refused_line line) out.old) result out.new }
{
    if out.len() < ROOM {
        return Err(TellError::Short);
    }
    let mut text = Out { bytes: out, at: 0 };
    text.refused_line(line);
    Ok(text.at)
}
