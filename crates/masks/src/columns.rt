// The word of a column: in exact a bit is a pitch, in octave the twelve lowest are the classes.

ghost use Rattle.std.specs.Prelude.{◌≡◌, ◌%◌, ◌^◌};
ghost use Rattle.masks.specs.Masks.{value, column_word};

use crate::word::Word;
use preparing::classes_of;
use ways::Way;

// The bit of a cell in its half. It is made of every cell alike, so that no test stands between the cells.
fn bit_of(cell: u8) -> u64
    ensures { result ≡ 2 ^ (cell % 64) }
{
    1 << (cell & 63)
}

// The pitches of a column.
fn pitch_word(column: &[u8]) -> Word
    ensures { value result.low result.high ≡ column_word Way.Exact column.now }
{
    let mut low: u64 = 0;
    let mut high: u64 = 0;
    for &cell in column {
        let bit = bit_of(cell);
        if cell < 64 {
            low |= bit;
        } else if cell < 128 {
            high |= bit;
        }
    }
    Word { low, high }
}

// The word of a column. A cell above 127 is a rest and has no bit.
pub fn word_of(way: Way, column: &[u8]) -> Word
    ensures { value result.low result.high ≡ column_word way column.now }
{
    match way {
        Way::Exact => pitch_word(column),
        Way::Octave => Word {
            low: u64::from(classes_of(column)),
            high: 0,
        },
    }
}
