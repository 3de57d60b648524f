// The class sets of columns: a bit for each of the twelve tones that is there. `sets` finds the interval sets of them.

ghost use Rattle.std.specs.Prelude.{◌≡◌, ◌+◌, ◌*◌, ◌≤◌, length};
ghost use Rattle.score.specs.Score.{cut};
ghost use Rattle.preparing.specs.Classes.{class_set, ClassBits, ClassSets};

use score::{HIGHEST_PITCH, Pitch, class_of};

// How many bytes there are: a look-up has a place for each.
const BYTES: usize = 256;

// So many cells are no longer looked up.
const MANY: usize = 8;

// The class sets of all columns: the first column's is the answer, and the others are stored in order.
pub fn gather(cells: &[u8], tracks: usize, others: &mut [u16]) -> u16
    requires { (length others.old + 1) * tracks ≤ length cells.now }
    ensures { ClassSets (cut (length others.old + 1) tracks cells.now) result others.new }
{
    let bits = class_bits();
    let (first, mut left) = cells.split_at(tracks);
    for other in others.iter_mut() {
        let (column, rest) = left.split_at(tracks);
        *other = class_set(column, &bits);
        left = rest;
    }
    class_set(first, &bits)
}

// The class bit of every byte, made once for a whole score.
fn class_bits() -> [u16; BYTES]
    ensures { ClassBits result }
{
    let mut bits = [0u16; BYTES];
    for cell in 0..=HIGHEST_PITCH {
        bits[cell as usize] = 1 << class_of(Pitch(cell)).0;
    }
    bits
}

// The class set of a column. Few cells are looked up; of many the bits are worked out, so that eight cells go together.
fn class_set(column: &[u8], bits: &[u16; BYTES]) -> u16
    requires { ClassBits bits.now }
    ensures { result ≡ class_set column.now }
{
    if column.len() < MANY {
        looked_up(column, bits)
    } else {
        classes_of(column)
    }
}

fn looked_up(column: &[u8], bits: &[u16; BYTES]) -> u16
    requires { ClassBits bits.now }
    ensures { result ≡ class_set column.now }
{
    let mut mask: u16 = 0;
    for &cell in column {
        mask |= bits[cell as usize];
    }
    mask
}

// The class set of a column, worked out cell by cell.
pub fn classes_of(column: &[u8]) -> u16
    ensures { result ≡ class_set column.now }
{
    let mut mask: u16 = 0;
    for &cell in column {
        if cell <= HIGHEST_PITCH {
            mask |= 1 << class_of(Pitch(cell)).0;
        }
    }
    mask
}
