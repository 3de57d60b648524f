// The call: a whole input, read into two lent buffers.

ghost use Rattle.std.specs.Prelude.{◌≤◌, length};
ghost use Rattle.score.specs.Limits.{most_cells};
ghost use Rattle.asking.specs.Limits.{most_notes};
ghost use Rattle.reading.specs.Taking.{Takes};
ghost use Rattle.reading.specs.Steps.{Held};

use crate::lines::{FaultyAfter, chord_lines, theme_line};
use asking::MOST_NOTES;
use score::MOST_CELLS;
use ways::AnyWay;

// A right input: its way, how many notes stand in the one buffer, and how many tracks and columns in the other.
#[derive(Clone, Copy)]
pub struct Reading {
    pub way: AnyWay,
    pub notes: usize,
    pub tracks: usize,
    pub columns: usize,
}

// The number of the first faulty line of an input; or a buffer is too short for some inputs. Either way both buffers stay as
// they were.
#[derive(Clone, Copy, Debug, PartialEq, Eq)]
pub enum ReadError {
    Bad { line: u32 },
    Short,
}

// The first chord line is line 2.
impl From<FaultyAfter> for ReadError {
    ghost use Rattle.std.specs.Prelude.{◌≡◌, ◌+◌};
    ghost use Rattle.reading.specs.declared.request.ReadError.TheVariants.{Bad};

    ghost from_gives = { λ after e. e ≡ Bad (after.0 + 2) };

    fn from(FaultyAfter(before): FaultyAfter) -> ReadError {
        ReadError::Bad {
            line: u32::from(before) + 2,
        }
    }
}

// Reads the notes to the front of a buffer of 32 bytes or more and the cells, column after column, to the front of one of
// 32,768 or more. Places behind them keep their contents, and all places do where a line is faulty. No input needs more room;
// where a buffer is shorter, the call is turned away.
pub fn read(input: &[u8], theme: &mut [u8], cells: &mut [u8]) -> Result<Reading, ReadError>
    ensures { Takes input.now theme.old cells.old result theme.new cells.new }
{
    if theme.len() < MOST_NOTES || cells.len() < MOST_CELLS {
        return Err(ReadError::Short);
    }
    // the last line may be the faulty one, so what is read goes into the lent buffers when all lines are right
    let mut notes = [0u8; MOST_NOTES];
    let mut columns = [0u8; MOST_CELLS];
    let reading = all_lines(input, &mut notes, &mut columns)?;
    let long = reading.columns * reading.tracks;
    theme[..reading.notes].copy_from_slice(&notes[..reading.notes]);
    cells[..long].copy_from_slice(&columns[..long]);
    Ok(reading)
}

// The theme line and all chord lines. Chord lines that are missing altogether are a fault of line 2.
fn all_lines(input: &[u8], theme: &mut [u8], cells: &mut [u8]) -> Result<Reading, ReadError>
    requires { (most_notes ≤ length theme.old) × (most_cells ≤ length cells.old) }
    ensures { Held input.now result theme.new cells.new }
{
    let line = theme_line(input, theme).ok_or(ReadError::Bad { line: 1 })?;
    let chords = chord_lines(input, line.next, cells)?;
    if chords.columns == 0 {
        return Err(ReadError::Bad { line: 2 });
    }
    Ok(Reading {
        way: line.way,
        notes: line.count,
        tracks: chords.tracks,
        columns: chords.columns,
    })
}
