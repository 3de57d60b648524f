// A word moved by a note: in exact by its distance from the theme's first note, in octave round about by its class.

ghost use Rattle.std.specs.Prelude.{◌≡◌, ◌*◌, ◌/◌, ◌%◌, ◌^◌, ◌<◌};
ghost use Rattle.masks.specs.Masks.{value, turned_word, moved_word};

use crate::word::{ALL_CLASSES, Word};
use score::{Class, Distance, Pitch, class_of};
use ways::Way;

// The word moved down by so many places as the distance says.
fn down(w: Word, distance: Distance) -> Word
    ensures { value result.low result.high ≡ value w.low w.high / 2 ^ distance.0 }
{
    let Word { low, high } = w;
    let d = distance.0;
    if d < 64 {
        Word {
            low: (low >> d) | ((high << 1) << (63 - d)),
            high: high >> d,
        }
    } else if d < 128 {
        Word {
            low: high >> (d - 64),
            high: 0,
        }
    } else {
        Word { low: 0, high: 0 }
    }
}

// The word moved up in the same way; what leaves the 128 bits is lost.
fn up(w: Word, distance: Distance) -> Word
    ensures { value result.low result.high ≡ value w.low w.high * 2 ^ distance.0 % 2 ^ 128 }
{
    let Word { low, high } = w;
    let d = distance.0;
    if d < 64 {
        Word {
            low: low << d,
            high: (high << d) | ((low >> 1) >> (63 - d)),
        }
    } else if d < 128 {
        Word {
            low: 0,
            high: low << (d - 64),
        }
    } else {
        Word { low: 0, high: 0 }
    }
}

// Twelve bits, one for each class, turned down until the given one stands lowest: what falls out below comes in above.
fn turned(low: u64, class: Class) -> u64
    requires { class.0 < 12 }
    ensures { result ≡ turned_word class.0 low }
{
    let d = class.0;
    ((low >> d) | (low << (12 - d))) & ALL_CLASSES
}

// The word moved by the note p, for a theme that begins with `first`: of the word of a column, the starts at which it holds p.
// What comes from outside the word is 0, notes above 127 move it as far as they say, and in octave twelve bits are given.
pub fn moved(way: Way, w: Word, first: Pitch, p: Pitch) -> Word
    ensures { value result.low result.high ≡ moved_word way first p (value w.low w.high) }
{
    match way {
        Way::Exact => {
            if first.0 <= p.0 {
                down(w, Distance(p.0 - first.0))
            } else {
                up(w, Distance(first.0 - p.0))
            }
        }
        Way::Octave => Word {
            low: turned(w.low, class_of(p)),
            high: 0,
        },
    }
}
